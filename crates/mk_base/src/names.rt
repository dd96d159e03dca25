//! The words for the types of simulators, and which texts may name an entity.
ghost use Rattle.std.specs.Prelude.{◌≡◌};
ghost use Rattle.mk_base.specs.Lists.{is_among, same_text};
ghost use Rattle.mk_base.specs.Names.{is_eid, kind_name, kind_named};

use crate::SimKind;
use crate::text::Text;

impl SimKind {
    /// The word of mosaik 3 for this type.
    pub fn name(self) -> &'static str
        ensures { result.now ≡ kind_name self }
    {
        match self {
            SimKind::TimeBased => "time-based",
            SimKind::EventBased => "event-based",
            SimKind::Hybrid => "hybrid",
        }
    }

    /// The type that the word names.
    pub fn named(word: &[u8]) -> Option<SimKind>
        ensures { result ≡ kind_named word.now }
    {
        if is_word(word, b"time-based") {
            Some(SimKind::TimeBased)
        } else if is_word(word, b"event-based") {
            Some(SimKind::EventBased)
        } else if is_word(word, b"hybrid") {
            Some(SimKind::Hybrid)
        } else {
            None
        }
    }
}

fn is_word(text: &[u8], word: &[u8]) -> bool
    ensures { result ≡ same_text text.now word.now }
{
    text == word
}

/// Whether the text may be an eid: it is neither empty nor `time`.
pub fn is_eid(text: &[u8]) -> bool
    ensures { result ≡ is_eid text.now }
{
    match text {
        [] => false,
        b"time" => false,
        _ => true,
    }
}

/// Whether the text is one of these.
pub fn is_among(texts: &[Text], text: &[u8]) -> bool
    ensures { result ≡ is_among texts.now text.now }
{
    texts.iter().any(|t| t.bytes() == text)
}
