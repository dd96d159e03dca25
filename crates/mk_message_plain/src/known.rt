//! Names that came last, so that texts share them.
ghost use Rattle.std.specs.Prelude.{◌≡◌, IfOk, IfSome};
ghost use Rattle.std.specs.Str.{IsUtf8};

use mk_base::{Mem, Text};
use std::alloc::Global;
use std::str;

// How many names are kept at most.
const PLACES: usize = 64;

// A longer name isn't kept.
const LONGEST: usize = 64;

/// The names of members that came last, each at a place that its length and its ends give. A name of at most 64 bytes
/// that comes again may be shared with the tree in which it stood before.
#[derive(Drop)]
pub struct Known {
    kept: Vec<Option<Text>>,
}

impl Known {
    /// No name; takes no memory.
    pub fn new(alloc: Global) -> Known {
        Known {
            kept: Vec::new(alloc),
        }
    }

    /// The text of a name: the one that is kept, or a new one, which is then kept in its place.
    pub fn text(&mut self, alloc: Global, name: &[u8]) -> Result<Text, Mem>
        requires { IsUtf8 name.now }
        ensures { IfOk result (λ t. t ≡ name.now) }
    {
        let place = place_of(name);
        if let Some(text) = kept_at(self.kept.as_slice(), place, name) {
            return text.copy();
        }
        let text = new_text(alloc, name)?;
        if name.len() <= LONGEST {
            self.keep(place, text.copy()?)?;
        }
        Ok(text)
    }

    // Keeps a name at its place; the places are made with the first one.
    fn keep(&mut self, place: usize, text: Text) -> Result<(), Mem> {
        for _place in self.kept.len()..PLACES {
            self.kept.push(None)?;
        }
        if let Some(kept) = self.kept.get_mut(place) {
            *kept = Some(text);
        }
        Ok(())
    }
}

fn new_text(alloc: Global, name: &[u8]) -> Result<Text, Mem>
    requires { IsUtf8 name.now }
    ensures { IfOk result (λ t. t ≡ name.now) }
{
    match str::from_utf8(name) {
        Ok(name) => Text::of(alloc, name),
        Err(_) => unreachable!(),
    }
}

// The text that is kept at a place, if it is this name's.
fn kept_at<'a>(kept: &'a [Option<Text>], place: usize, name: &[u8]) -> Option<&'a Text>
    ensures { IfSome result (λ t. t.now ≡ name.now) }
{
    match kept.get(place) {
        Some(Some(text)) if text.bytes() == name => Some(text),
        _ => None,
    }
}

// The place of a name: by its length, its first byte and its last.
fn place_of(name: &[u8]) -> usize {
    let ends = match (name.first(), name.last()) {
        (Some(first), Some(last)) => *first as usize * 7 + *last as usize * 3,
        _ => 0,
    };
    (ends + name.len()) % PLACES
}
