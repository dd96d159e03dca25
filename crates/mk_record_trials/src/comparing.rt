//! Records that differ from a journal, entry by entry.
ghost use Rattle.std.specs.Prelude.{◌≡◌, length};

use crate::common::{PLAN, counter_journal};
use mk_plan::Journal;
use mk_record_compare::{first_other, first_other_step};
use mk_record_read::{Saved, read_record};
use std::alloc::Global;

// Whether a record differs from a journal at this place; and by its steps alone.
fn is_other(saved: &Saved, journal: &Journal, place: Option<u32>) -> bool
    requires { length journal.now.entries ≡ 6 }
{
    first_other(saved, journal) == place
        && first_other_step(saved.arrivals.len(), &saved.asks, journal) == place
}

// The same of the journal of a counter's three steps.
fn is_other_than_counter(alloc: Global, saved: &Saved, place: Option<u32>) -> bool {
    match counter_journal(alloc) {
        Ok(journal) => is_other(saved, &journal, place),
        Err(_) => false,
    }
}

fn is_text_other(alloc: Global, text: &str, place: Option<u32>) -> bool {
    match read_record(alloc, text.as_bytes()) {
        Ok(saved) => is_other_than_counter(alloc, &saved, place),
        Err(_) => false,
    }
}

// Lines after the plan, and the place.
type Case = (&'static str, Option<u32>);

fn is_case(alloc: Global, case: &Case) -> bool {
    match format!(in alloc; "mosaikrun 2\n{PLAN}{}", case.0) {
        Ok(text) => is_text_other(alloc, text.as_str(), case.1),
        Err(_) => false,
    }
}

// The journal's messages are the first of each record's own.
const CASES: [Case; 5] = [
    (
        "ask [0,0,0,3]\ngot [0,[1,3,1]]\nask [0,1,0,3]\ngot [0,[1,4,2]]\nask [0,2,0,3]\ngot [0,[1,5,3]]\nend 6\n",
        None,
    ),
    (
        "ask [0,0,0,2]\ngot [0,[1,3,1]]\nask [0,1,0,3]\ngot [0,[1,4,2]]\nask [0,2,0,3]\ngot [0,[1,5,3]]\nend 6\n",
        Some(0),
    ),
    (
        "ask [0,0,0,3]\ngot [0,[1,3,1]]\ngot [0,[1,4,2]]\nask [0,2,0,3]\ngot [0,[1,5,3]]\nend 5\n",
        Some(2),
    ),
    (
        "ask [0,0,0,3]\ngot [0,[1,3,1]]\nask [0,1,0,3]\ngot [0,[1,4,2]]\nask [0,2,0,3]\ngot [0,[1,5,3]]\nask [0,2,0,3]\nend 7\n",
        Some(6),
    ),
    (
        "ask [0,0,0,3]\ngot [0,[1,3,1]]\nask [0,1,0,3]\ngot [0,[1,4,2]]\nask [0,2,0,3]\ngot [0,[1,5,3]]\ngot [0,[1,6,4]]\nend 7\n",
        Some(6),
    ),
];

// How many records differ so, up to the first that doesn't.
fn count_cases(alloc: Global) -> usize {
    for (place, case) in CASES.iter().enumerate() {
        if !is_case(alloc, case) {
            return place;
        }
    }
    CASES.len()
}

#[test]
fn the_first_entry_that_differs(rt: HostRuntime) {
    assert_eq!(rt; count_cases(rt.alloc()), CASES.len());
}
