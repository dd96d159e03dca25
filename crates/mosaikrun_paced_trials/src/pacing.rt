//! A paced run over a fleet in memory, and what it comes to.
ghost use Rattle.std.specs.Prelude.{◌≤◌, IfSome};
ghost use Rattle.mk_base.specs.Limits.{most_milliseconds};

use mk_base::{List, Mem};
use mk_fakes::{Chunk, MemFleet};
use mk_local::Registry;
use mk_onlooker::Nobody;
use mosaikrun_paced::paced_ran;
use mosaikrun_run::Told;
use mosaikrun_samples::{COUNTER, is_both, outcome_of};
use std::alloc::Global;
use std::sync::Wait;

/// How many milliseconds a unit of time has.
pub const FACTOR: u64 = 1000;

/// A clock: by how many milliseconds each reading is later than the one before, sleeps aside, and how many times the
/// fleet sleeps before a sleep fails.
#[derive(Clone, Copy)]
pub struct Clock {
    pub tick: u64,
    pub naps: u64,
}

/// A fleet with this clock, which begins at 0, on which this comes, and which takes each write whole.
pub fn ticking(alloc: Global, chunks: List<Chunk>, clock: Clock) -> Result<MemFleet, Mem> {
    let mut fleet = MemFleet::new(alloc, chunks, List::new(alloc), 1_000_000, 0, 4_000_000)?;
    fleet.set_clock(0, clock.tick, clock.naps);
    Ok(fleet)
}

// How late a step may be, in milliseconds: not at all if the run is strict, and else as late as it comes.
fn allowance(is_strict: bool) -> Option<u64>
    ensures { IfSome result (λ ms. ms ≤ most_milliseconds) }
{
    if is_strict { Some(0) } else { None }
}

// What the paced run of the counter over the fleet tells.
fn told<R: Wait>(
    rt: &R,
    alloc: Global,
    kinds: &Registry,
    fleet: &mut MemFleet,
    strict: Option<u64>,
) -> Told
    requires { IfSome strict (λ ms. ms ≤ most_milliseconds) }
{
    let mut nobody = Nobody;
    paced_ran(
        rt,
        alloc,
        kinds,
        COUNTER.as_bytes(),
        fleet,
        FACTOR,
        strict,
        true,
        &mut nobody,
    )
}

// Whether a run told this text and this record.
fn is_told(alloc: Global, told: &Told, text: &str, kept: &str) -> bool {
    match outcome_of(alloc, told) {
        Ok(outcome) => {
            let right = is_both(&outcome, text, kept);
            drop(outcome);
            right
        }
        Err(_) => false,
    }
}

fn is_told_of<R: Wait>(
    rt: &R,
    alloc: Global,
    kinds: &Registry,
    fleet: &mut MemFleet,
    is_strict: bool,
    text: &str,
    kept: &str,
) -> bool {
    let told = told(rt, alloc, kinds, fleet, allowance(is_strict));
    let right = is_told(alloc, &told, text, kept);
    drop(told);
    right
}

/// Whether the paced run of the counter over the fleet comes to this text and this record, no kind being there; if it
/// is strict, no step may be late.
pub fn comes_to<R: Wait>(
    rt: &R,
    alloc: Global,
    fleet: &mut MemFleet,
    is_strict: bool,
    text: &str,
    kept: &str,
) -> bool {
    let kinds = Registry::new(alloc);
    let right = is_told_of(rt, alloc, &kinds, fleet, is_strict, text, kept);
    drop(kinds);
    right
}
