//! Records of both versions, and one that is written.
ghost use Rattle.std.specs.Prelude.{◌≡◌, true};
ghost use Rattle.std.specs.List.{list_all};
ghost use Rattle.mk_record_write.specs.Writable.{is_writable};

use crate::common::{NINE_LINES, TWELVE_LINES, counter_journal};
use mk_base::{SimKind, SimNo, Tier};
use mk_plan::{Journal, Plan};
use mk_record_read::{Asked, Saved, read_record};
use mk_record_write::write_record;
use std::alloc::Global;

// The counter's step at this time, before which it replied as often.
fn asked(time: u32) -> Asked {
    Asked {
        before: time as u64,
        sim: SimNo(0),
        at: Tier {
            time: time as i64,
            tier: 0,
        },
        max_advance: 3,
    }
}

// Whether the steps of a record are the counter's at 0, 1 and 2.
fn has_three_steps(saved: &Saved) -> bool {
    match &saved.asks {
        Some(steps) => steps.as_slice() == [asked(0), asked(1), asked(2)].as_slice(),
        None => false,
    }
}

// Whether a plan has one counter with one entity, to the time 3.
fn is_counter(plan: &Plan) -> bool {
    match (plan.sims.as_slice(), plan.entities.as_slice()) {
        ([sim], [entity]) => {
            plan.until == 3
                && (sim.kind, sim.first_id) == (SimKind::TimeBased, 3)
                && entity.eid.as_str() == "0"
        }
        _ => false,
    }
}

// Whether a record says the counter's plan and three messages; and whether its steps are the counter's at 0, 1 and 2.
fn is_said(alloc: Global, text: &[u8], steps: bool) -> bool {
    match read_record(alloc, text) {
        Ok(saved) => {
            is_counter(&saved.plan) && saved.arrivals.len() == 3 && has_three_steps(&saved) == steps
        }
        Err(_) => false,
    }
}

#[test]
fn records_of_both_versions_say_a_plan_and_three_messages(rt: HostRuntime) {
    assert!(rt; is_said(rt.alloc(), NINE_LINES, false) && is_said(rt.alloc(), TWELVE_LINES, true));
}

// Whether the record of a plan and a journal is that of the counter's three steps.
fn is_written(alloc: Global, plan: &Plan, journal: &Journal) -> bool
    requires { list_all is_writable journal.now.entries ≡ true }
{
    match write_record(alloc, plan, journal) {
        Ok(text) => text.as_slice() == TWELVE_LINES,
        Err(_) => false,
    }
}

fn is_journal_written(alloc: Global, plan: &Plan) -> bool {
    match counter_journal(alloc) {
        Ok(journal) => is_written(alloc, plan, &journal),
        Err(_) => false,
    }
}

fn is_record_written(alloc: Global) -> bool {
    match read_record(alloc, NINE_LINES) {
        Ok(saved) => is_journal_written(alloc, &saved.plan),
        Err(_) => false,
    }
}

#[test]
fn a_record_is_written(rt: HostRuntime) {
    assert!(rt; is_record_written(rt.alloc()));
}
