//! Where two talks part.
ghost use Rattle.std.specs.Prelude.{◌≡◌, map, if◌then◌else◌};
ghost use Rattle.mk_blame.specs.Talks.{said, step_after};
ghost use Rattle.mk_plan.specs.Acts.{Told};
ghost use Rattle.mk_plan.specs.Journals.{bare};
ghost use Rattle.mk_blame.specs.inner.Parted.{PartingOf, is_message};

use crate::comparing::says_same;
use mk_base::Tier;
use mk_plan::{Entry, Item};

// How two talks stand to each other: they are equal; one ends where the other goes on; or they have
// different entries at a place, before which so many messages came and the last Step had this time.
#[derive(Clone, Copy)]
pub enum Parting {
    Never,
    End,
    Entry {
        number: usize,
        place: u64,
        at: Option<Tier>,
    },
}

/// How two talks stand to each other.
pub fn compared(talk: &[&Entry], other: &[&Entry]) -> Parting
    ensures { PartingOf (map (λ e. said e.now) talk.now) (map (λ e. said e.now) other.now) result }
{
    let mut place: u64 = 0;
    let mut at = None;
    for (number, entry) in talk.iter().enumerate() {
        if number >= other.len() {
            return Parting::End;
        }
        if !says_same(entry, other[number]) {
            return Parting::Entry { number, place, at };
        }
        place += messages_in(entry);
        at = step_after(at, entry);
    }
    if talk.len() < other.len() {
        Parting::End
    } else {
        Parting::Never
    }
}

// How many messages the entry is: one or none.
fn messages_in(entry: &Entry) -> u64
    ensures { result ≡ (if is_message (said entry.now) then 1 else 0) }
{
    match entry {
        Entry::Sent(_, _) => 0,
        Entry::Got(_, _) => 1,
    }
}

// The time of the Step that the entry sends, or else the time before.
fn step_after(before: Option<Tier>, entry: &Entry) -> Option<Tier>
    ensures { result ≡ step_after before (said entry.now) }
{
    match entry {
        Entry::Sent(_, item) => time_after(before, item),
        Entry::Got(_, _) => before,
    }
}

fn time_after(before: Option<Tier>, item: &Item) -> Option<Tier>
    ensures { result ≡ step_after before (Told (bare item.now)) }
{
    match item {
        Item::Step {
            at,
            inputs: _,
            max_advance: _,
        } => Some(*at),
        Item::GetData { wanted: _ } => before,
        Item::Answer { id: _, content: _ } => before,
        Item::Refuse { id: _, reason: _ } => before,
    }
}
