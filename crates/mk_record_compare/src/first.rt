//! The first of a record's entries that isn't the journal's.
ghost use Rattle.std.specs.Prelude.{◌≡◌, ◌≤◌, ◌∷◌, List, length, map, drop, option_map, MatchOption};
ghost use Rattle.mk_base.specs.Lists.{BeginsWith};
ghost use Rattle.mk_plan.specs.declared.Input.{Input};
ghost use Rattle.mk_plan.specs.declared.Entry.TheVariants.{Sent, Got};
ghost use Rattle.mk_plan.specs.declared.Item.TheVariants.{Step};
ghost use Rattle.mk_plan.specs.Journals as journals;
ghost use Rattle.mk_plan.specs.Journals.{arrivals};
ghost use Rattle.mk_record_read.specs.declared.saved.Arrival.{Arrival};
ghost use Rattle.mk_record_read.specs.Entries.{entries_after, entries_of, step_of, StepOf, MessageOf};
ghost use Rattle.mk_record_read.specs.Seen.{came};
ghost use Rattle.mk_plan_same.specs.Decisions.{Decides};
ghost use Rattle.mk_record_compare.specs.Differences.{IsFirstOther, IsOther};
ghost use Rattle.mk_record_compare.specs.inner.Matches.{AreMessages, IsMatch, IsMessageNext, IsNamed, IsNextNamed, left};
ghost use Rattle.mk_base.specs.Limits.{most_entries};

use crate::messages::same_message;
use mk_base::{List, SimNo, Tier};
use mk_plan::{Entry, Item, Journal, Message};
use mk_record_read::{Arrival, Asked, Saved};

/// The number, from 0, of the first entry of a record that isn't the journal's entry at that place among its Steps and
/// messages, or for which the journal has none; `None` where the journal begins with all that the record has, and
/// always of a record of version 1. The journal has at most 20,000,000 entries.
pub fn first_other(saved: &Saved, journal: &Journal) -> Option<u32>
    requires { length journal.now.entries ≤ most_entries }
    ensures { IsOther (map came saved.now.arrivals) saved.now.asks journal.now.entries result }
{
    match &saved.asks {
        None => None,
        Some(steps) => other_among(
            Some(&saved.arrivals),
            saved.arrivals.len(),
            steps.as_slice(),
            journal.entries.as_slice(),
        ),
    }
}

/// The same of a record of which the steps alone are at hand, and how many messages it has; the journal's messages are
/// the first of these.
pub fn first_other_step(count: usize, steps: &Option<List<Asked>>, journal: &Journal) -> Option<u32>
    requires { length journal.now.entries ≤ most_entries }
    ensures { (A : List journals.Arrival) → length A ≡ count
        → BeginsWith A (arrivals journal.now.entries)
        → IsOther A steps.now journal.now.entries result }
{
    match steps {
        None => None,
        Some(steps) => other_among(None, count, steps.as_slice(), journal.entries.as_slice()),
    }
}

// What a journal's entry is to the entries of a record that are left.
#[derive(Clone, Copy)]
pub enum Match {
    Neither,
    NextStep,
    NextMessage,
    Another,
    Behind,
}

// Compares with the journal's entries the steps and so many messages: those at hand, or else those that the journal has
// first.
fn other_among(
    messages: Option<&List<Arrival>>,
    count: usize,
    asks: &[Asked],
    entries: &[Entry],
) -> Option<u32>
    requires { length entries.now ≤ most_entries }
    ensures { (A : List Arrival)
        → AreMessages (option_map (λ m. m.now) messages.entry) count entries.now A
        → IsFirstOther (entries_after 0 (map came A) asks.now) (entries_of entries.now) result }
{
    let mut rest = count;
    let mut steps = asks;
    let mut before: u64 = 0;
    let mut place: u32 = 0;
    for entry in entries {
        match match_of(messages, rest, steps, before, entry) {
            Match::Neither => {}
            Match::NextStep => {
                steps = but_first(steps);
                place += 1;
            }
            Match::NextMessage => {
                rest = rest.saturating_sub(1);
                before += 1;
                place += 1;
            }
            Match::Another => return Some(place),
            Match::Behind => return None,
        }
    }
    if rest == 0 && steps.is_empty() {
        None
    } else {
        Some(place)
    }
}

// All but the first of the steps.
fn but_first(steps: &[Asked]) -> &[Asked]
    ensures { result.now ≡ drop 1 steps.now }
{
    match steps {
        [] => steps,
        [_, others @ ..] => others,
    }
}

// What the journal's entry is to the entries that are left, where so many messages are.
fn match_of(
    messages: Option<&List<Arrival>>,
    rest: usize,
    steps: &[Asked],
    before: u64,
    entry: &Entry,
) -> Match
    ensures { (A : List Arrival) → length A ≡ rest
        → IsNextNamed (option_map (λ m. m.now) messages.entry) before entry.now A
        → IsMatch before A steps.now entry.now result }
{
    match entry {
        Entry::Sent(sim, item) => item_match(rest, steps, before, *sim, item),
        Entry::Got(sim, message) => message_match(messages, rest, steps, before, *sim, message),
    }
}

fn item_match(rest: usize, steps: &[Asked], before: u64, sim: SimNo, item: &Item) -> Match
    ensures { (A : List Arrival) → length A ≡ rest
        → IsMatch before A steps.now (Sent sim item.now) result }
{
    match item {
        Item::Step {
            at,
            inputs: _,
            max_advance,
        } => step_match(rest, steps, before, sim, at, max_advance),
        Item::GetData { wanted: _ } => Match::Neither,
        Item::Answer { id: _, content: _ } => Match::Neither,
        Item::Refuse { id: _, reason: _ } => Match::Neither,
    }
}

// The step that is the next entry, if the next entry is one.
fn next_step<'a>(rest: usize, steps: &'a [Asked], before: u64) -> Option<&'a Asked>
    ensures { (A : List Arrival) → length A ≡ rest
        → MatchOption result (IsMessageNext before A steps.now)
        (λ a. (left before A steps.now ≡ step_of a.now ∷ left before A (drop 1 steps.now))
        × (1 ≤ length steps.now)) }
{
    match steps {
        [] => None,
        [asked, ..] => {
            if asked.before <= before {
                Some(asked)
            } else if rest == 0 {
                Some(asked)
            } else {
                None
            }
        }
    }
}

fn step_match(
    rest: usize,
    steps: &[Asked],
    before: u64,
    sim: SimNo,
    at: &Tier,
    max_advance: &i64,
) -> Match
    ensures { (A : List Arrival) → length A ≡ rest → (ins : List Input)
        → IsMatch before A steps.now (Sent sim (Step at.now ins max_advance.now)) result }
{
    match next_step(rest, steps, before) {
        Some(asked) => {
            if is_step(asked, sim, at, max_advance) {
                Match::NextStep
            } else {
                Match::Another
            }
        }
        None => {
            if rest == 0 {
                Match::Behind
            } else {
                Match::Another
            }
        }
    }
}

fn is_step(asked: &Asked, sim: SimNo, at: &Tier, max_advance: &i64) -> bool
    ensures { Decides result (StepOf sim.0 at.now max_advance.now ≡ step_of asked.now) }
{
    asked.sim.0 == sim.0
        && asked.at.time == at.time
        && asked.at.tier == at.tier
        && asked.max_advance == *max_advance
}

fn message_match(
    messages: Option<&List<Arrival>>,
    rest: usize,
    steps: &[Asked],
    before: u64,
    sim: SimNo,
    message: &Message,
) -> Match
    ensures { (A : List Arrival) → length A ≡ rest
        → IsNextNamed (option_map (λ m. m.now) messages.entry) before (Got sim message.now) A
        → IsMatch before A steps.now (Got sim message.now) result }
{
    match next_step(rest, steps, before) {
        Some(_) => Match::Another,
        None => {
            if rest == 0 {
                Match::Behind
            } else if is_next(messages, before, sim, message) {
                Match::NextMessage
            } else {
                Match::Another
            }
        }
    }
}

// Whether the journal's message is the next of the record's; where those aren't at hand, it is.
fn is_next(messages: Option<&List<Arrival>>, before: u64, sim: SimNo, message: &Message) -> bool
    ensures { (a : Arrival)
        → IsNamed (option_map (λ m. m.now) messages.entry) before
        (record { sim = sim.0; message = message.now }) a
        → Decides result (MessageOf (record { sim = sim.0; message = message.now })
        ≡ MessageOf (came a)) }
{
    match messages {
        None => true,
        Some(messages) => match messages.get(before as usize) {
            None => false,
            Some(arrival) => is_message(arrival, sim, message),
        },
    }
}

fn is_message(arrival: &Arrival, sim: SimNo, message: &Message) -> bool
    ensures { Decides result (MessageOf (record { sim = sim.0; message = message.now })
        ≡ MessageOf (came arrival.now)) }
{
    arrival.sim.0 == sim.0 && same_message(message, &arrival.message)
}
