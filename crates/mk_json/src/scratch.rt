//! What reading keeps from text to text: the parser's room, and the names of members that were read last.
ghost use Rattle.std.specs.Prelude.{◌≡◌, IfOk, IfSome};

use mk_base::{Mem, Text};
use std::alloc::Global;

// How many names are kept at most.
const PLACES: usize = 64;

// A longer name isn't kept.
const LONGEST: usize = 64;

/// Room that reading needs; where it is kept from text to text, it is made once, and a name of at most 64 bytes that
/// comes again may be shared with the tree in which it stood before.
#[derive(Drop)]
pub struct Scratch {
    pub(crate) parser: json::Scratch,
    pub(crate) names: Names,
}

impl Scratch {
    /// A room for readings, in which no name is kept yet. It takes no memory.
    pub fn new(alloc: Global) -> Scratch {
        Scratch {
            parser: json::Scratch::new(alloc),
            names: Names {
                kept: Vec::new(alloc),
            },
        }
    }
}

// The names of members that were read last, each at a place that its length and its ends give.
#[derive(Drop)]
pub struct Names {
    kept: Vec<Option<Text>>,
}

impl Names {
    // The text of a name: the one that is kept, or a new one, which is then kept in its place.
    pub fn text(&mut self, alloc: Global, name: &str) -> Result<Text, Mem>
        ensures { IfOk result (λ t. t ≡ name.now) }
    {
        let place = place_of(name.as_bytes());
        if let Some(text) = kept_at(self.kept.as_slice(), place, name) {
            return text.copy();
        }
        let text = Text::of(alloc, name)?;
        if name.as_bytes().len() <= LONGEST {
            self.keep(place, text.copy()?)?;
        }
        Ok(text)
    }

    // Keeps a name at its place; the places are made with the first one.
    fn keep(&mut self, place: usize, text: Text) -> Result<(), Mem> {
        for _place in self.kept.len()..PLACES {
            self.kept.push(None)?;
        }
        if let Some(kept) = self.kept.get_mut(place) {
            *kept = Some(text);
        }
        Ok(())
    }
}

// The text that is kept at a place, if it is this name's.
fn kept_at<'a>(kept: &'a [Option<Text>], place: usize, name: &str) -> Option<&'a Text>
    ensures { IfSome result (λ t. t.now ≡ name.now) }
{
    match kept.get(place) {
        Some(Some(text)) if text.bytes() == name.as_bytes() => Some(text),
        _ => None,
    }
}

// The place of a name: by its length, its first byte and its last.
fn place_of(name: &[u8]) -> usize {
    let ends = match (name.first(), name.last()) {
        (Some(first), Some(last)) => *first as usize * 7 + *last as usize * 3,
        _ => 0,
    };
    (ends + name.len()) % PLACES
}
