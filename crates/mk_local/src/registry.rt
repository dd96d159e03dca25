//! The kinds that a program has, by their names.
ghost use Rattle.std.specs.Prelude.{◌≡◌, false, [], ◌∷◌, ◌++◌, map, IfOk, IfSome, OnOk, OnErr};
ghost use Rattle.mk_base.specs.Lists.{IsIn, same_text};
ghost use Rattle.mk_local.specs.Kinds.{has_kind, kind_named, name_of};
ghost use Rattle.mk_local.specs.Registries.{rows_in};

use crate::kind::Kind;
use crate::names::name_of;
use crate::turn::Turn;
use mk_base::{List, Mem, Text};
use std::alloc::Global;

/// The kinds that a program has, each under a name of its own.
#[derive(Drop)]
pub struct Registry {
    kinds: List<Kind>,
}

impl Registry {
    /// A registry without kinds.
    pub fn new(alloc: Global) -> Registry
        ensures { rows_in result ≡ [] }
    {
        Registry {
            kinds: List::new(alloc),
        }
    }

    /// Adds a kind, whose name isn't there yet. At `Mem` the kind is dropped.
    pub fn add(&mut self, kind: Kind) -> Result<(), Mem>
        requires { has_kind (name_of kind.turn) (rows_in self.old) ≡ false }
        ensures ok { OnOk result (rows_in self.new ≡ rows_in self.old ++ kind.turn ∷ []) }
        ensures err { OnErr result (rows_in self.new ≡ rows_in self.old) }
    {
        self.kinds.push(kind)
    }

    /// Whether a kind has this name.
    #[tactic(auto, using(crate::proofs::Named::has_found))]
    pub fn has(&self, name: &str) -> bool
        ensures { result ≡ has_kind name.now (rows_in self.now) }
    {
        self.named(name).is_some()
    }

    /// The names of the kinds, in the order in which they were added.
    pub fn names(&self, alloc: Global) -> Result<List<Text>, Mem>
        ensures { IfOk result (λ names. names ≡ map name_of (rows_in self.now)) }
    {
        let mut names = List::new(alloc);
        for kind in self.kinds.as_slice() {
            names.push(Text::of(alloc, name_of(kind.turn))?)?;
        }
        Ok(names)
    }

    // The row of the kind of this name.
    pub(crate) fn named(&self, name: &str) -> Option<Turn>
        ensures { result ≡ kind_named name.now (rows_in self.now) }
    {
        for kind in self.kinds.as_slice() {
            if is_named(kind.turn, name) {
                return Some(kind.turn);
            }
        }
        None
    }

    // The kind of this row, if it is there.
    pub(crate) fn of(&self, turn: Turn) -> Option<&Kind>
        ensures same { IfSome result (λ k. k.now.turn ≡ turn) }
        ensures none { result ≡ None → IsIn turn (rows_in self.now) → ⊥ }
    {
        for kind in self.kinds.as_slice() {
            if kind.turn == turn {
                return Some(kind);
            }
        }
        None
    }
}

// Whether the row's kind has this name.
fn is_named(turn: Turn, name: &str) -> bool
    ensures { result ≡ same_text (name_of turn) name.now }
{
    name_of(turn) == name
}
