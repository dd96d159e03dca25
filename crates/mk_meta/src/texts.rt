//! Texts in order, among which a text is looked up without going through them.
ghost use Rattle.std.specs.Prelude.{◌≡◌, ◌++◌, ◌∷◌, [], OnOk, IfOk};
ghost use Rattle.mk_base.specs.Lists.{is_among};
ghost use Rattle.mk_meta.specs.inner.TextSets.{HasMore, HasTexts};

use indexmap::IndexSet;
use mk_base::{List, Mem, Text};
use std::alloc::Global;
use std::marker::Model;

/// Texts, which contracts see as the list of them.
#[derive(Drop)]
pub struct Texts {
    kept: List<Text>,
    known: IndexSet<String>,
}

impl Model for Texts {
    ghost use Rattle.std.specs.Prelude.{List, ℕ};
    ghost use Rattle.std.specs.Coded.{coded_list, coded_ℕ};
    ghost use Rattle.mk_meta.specs.inner.TextSets.{HasTexts};

    ghost Value = { List (List ℕ) };

    ghost coded = { coded_list (coded_list coded_ℕ) };

    ghost view = { λ a. a.kept };

    ghost invariant = { λ a. HasTexts a.known a.kept };
}

impl Texts {
    fn new(alloc: Global) -> Texts
        ensures { result ≡ [] }
    {
        Texts {
            kept: List::new(alloc),
            known: IndexSet::new(alloc),
        }
    }

    // These texts and one more.
    fn with(self, alloc: Global, text: &Text) -> Result<Texts, Mem>
        ensures { IfOk result (λ texts. texts ≡ self ++ text.now ∷ []) }
    {
        let Texts {
            mut kept,
            mut known,
        } = self;
        add(alloc, &mut kept, &mut known, text)?;
        Ok(Texts { kept, known })
    }

    /// Whether this is one of them.
    pub fn has(&self, text: &Text) -> bool
        ensures { result ≡ is_among self.now text.now }
    {
        self.known.contains(text.as_str())
    }

    /// Gives the list back; takes no memory.
    pub fn into_list(self) -> List<Text>
        ensures { result ≡ self }
    {
        self.kept
    }
}

// Puts one more text to these, and into the set.
fn add(
    alloc: Global,
    kept: &mut List<Text>,
    known: &mut IndexSet<String>,
    text: &Text,
) -> Result<(), Mem>
    requires { HasTexts known.old kept.old }
    ensures kept { OnOk result (kept.new ≡ kept.old ++ text.now ∷ []) }
    ensures known { OnOk result (HasTexts known.new kept.new) }
{
    know(alloc, known, text)?;
    kept.push(text.copy()?)?;
    Ok(())
}

// Puts the text into the set.
fn know(alloc: Global, known: &mut IndexSet<String>, text: &Text) -> Result<(), Mem>
    ensures { OnOk result (HasMore known.old text.now known.new) }
{
    known.insert(String::from_str(alloc, text.as_str())?)?;
    Ok(())
}

/// The texts of this list.
pub fn texts_of(alloc: Global, texts: &List<Text>) -> Result<Texts, Mem>
    ensures { IfOk result (λ made. made ≡ texts.now) }
{
    let mut made = Texts::new(alloc);
    for text in texts.as_slice() {
        made = made.with(alloc, text)?;
    }
    Ok(made)
}
