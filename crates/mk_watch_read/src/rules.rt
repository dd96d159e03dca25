//! The rules that a program has, by their names.
ghost use Rattle.std.specs.Prelude.{◌≡◌, ◌<◌, ◌-◌, ◌^◌, [], ◌∷◌, ◌++◌, false, length, slice_get, OnOk, OnErr};
ghost use Rattle.mk_base.specs.Lists.{same_text};

use crate::rule::Rule;
use mk_base::{List, Mem};
use std::alloc::Global;

/// The rules that a program has, in the order in which they were added; fewer than 2^32.
#[derive(Drop)]
pub struct Rules {
    rules: List<Rule>,
    ghost few: { length rules < 2 ^ 32 },
}

impl Rules {
    ghost use Rattle.mk_watch_read.specs.Rules.{folds_in, has_name, names_in, place_of};

    /// No rule.
    pub fn new(alloc: Global) -> Rules
        ensures names { names_in result ≡ [] }
        ensures folds { folds_in result ≡ [] }
    {
        Rules {
            rules: List::new(alloc),
        }
    }

    /// Adds a rule behind the others, whose name isn't there yet. At `Mem`, want of memory, the rule is
    /// dropped, and the others stay.
    pub fn add(&mut self, rule: Rule) -> Result<(), Mem>
        requires new_name { has_name rule.name (names_in self.old) ≡ false }
        requires few { length (names_in self.old) < 2 ^ 32 - 1 }
        ensures names { OnOk result (names_in self.new ≡ names_in self.old ++ rule.name ∷ []) }
        ensures folds { OnOk result (folds_in self.new ≡ folds_in self.old ++ rule.fold ∷ []) }
        ensures names_kept { OnErr result (names_in self.new ≡ names_in self.old) }
        ensures folds_kept { OnErr result (folds_in self.new ≡ folds_in self.old) }
    {
        self.rules.push(rule)
    }

    /// The place of the first rule of this name, from 0; `None` exactly where no rule has it.
    pub fn find(&self, name: &str) -> Option<u32>
        ensures { result ≡ place_of name.now (names_in self.now) }
    {
        for (place, rule) in self.rules.as_slice().iter().enumerate() {
            if is_named(rule, name) {
                return Some(place as u32);
            }
        }
        None
    }

    /// The rule at a place, from 0.
    pub fn at(&self, place: u32) -> &Rule
        requires { place < length (names_in self.now) }
        ensures name { slice_get (names_in self.now) place ≡ Some result.now.name }
        ensures fold { slice_get (folds_in self.now) place ≡ Some result.now.fold }
    {
        self.rules.at(place as usize)
    }
}

// Whether the rule has this name.
fn is_named(rule: &Rule, name: &str) -> bool
    ensures { result ≡ same_text rule.now.name name.now }
{
    rule.name.as_str() == name
}
