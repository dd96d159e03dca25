//! What waits is sent: Steps whose moments have come, and what stands right behind them.
ghost use Rattle.std.specs.Prelude.{◌≡◌, ◌≤◌, ◌<◌, ◌+◌, ℕ, List, ◌∷◌, None, OnOk, Some, false, length, slice_get, true};
ghost use Rattle.mk_outside.specs.declared.fleet.LogEntry.{LogEntry};
ghost use Rattle.mk_local.specs.Registries.{rows_in};
ghost use Rattle.mk_pace_held.specs.declared.held.Held.{Held};
ghost use Rattle.mk_pace_held.specs.Firsts.{IsFirst};
ghost use Rattle.mk_run_local.specs.Seen.{AreOf};
ghost use Rattle.mk_run_crew.specs.Seen.{within_of};
ghost use Rattle.mk_run.specs.inner.Turns.{IsStill};
ghost use Rattle.mk_run.specs.inner.Underway.{Setting};
ghost use Rattle.mk_pace_loop.specs.inner.Pacing.{BeginsWithStep};
ghost use Rattle.mk_pace_loop.specs.inner.Turns.{GoesOn, HasJustTold, SendsDueAs};
ghost use Rattle.mk_pace_loop.specs.inner.Sendings.{GoesOnBut, IsFewer, IsNoMore, SendsBehindAs, SendsFirstAs, SendsNextAs, SendsStepAs};
ghost use Rattle.mk_pace_loop.specs.inner.Waiting.{IsOnTempo};

use crate::waiting::Waiting;
use mk_base::SimNo;
use mk_local::Registry;
use mk_pace_held::{First, Held};
use mk_pace_laws::{Moment, PaceEnd};
use mk_run::{Outcome, send_at};
use mk_run_crew::Crew;
use mk_run_local::replies_are_kinds;
use mk_sched::Core;

// Whether no Step waits first of a simulator, but something that stands right behind one.
fn is_behind(waiting: &Waiting, sim: SimNo) -> bool
    requires { sim.0 < length waiting.now.holds }
    ensures next { result ≡ true → (h : Held) × (q : List Held)
        × (slice_get waiting.now.holds sim.0 ≡ Some (h ∷ q)) × (h.due ≡ None) }
    ensures none { result ≡ false → (q : List Held)
        × (slice_get waiting.now.holds sim.0 ≡ Some q) × BeginsWithStep q }
{
    match waiting.front(sim) {
        Some(held) => held.due.is_none(),
        None => false,
    }
}

// Sends what waits first of a simulator, right behind a Step of it.
fn send_next(
    core: &Core,
    crew: &mut Crew,
    kinds: &Registry,
    waiting: &mut Waiting,
    sim: SimNo,
) -> Result<(), Outcome>
    requires known { AreOf (rows_in kinds.now) (within_of crew.old) }
    requires next { (h : Held) × (q : List Held)
        × (slice_get waiting.old.holds sim.0 ≡ Some (h ∷ q)) × (h.due ≡ None) }
    requires goes { (S : Setting) × (log : List LogEntry)
        × GoesOnBut sim.0 S core.now log crew.old waiting.old }
    ensures sent { SendsNextAs result sim.0 core.now crew.old waiting.old crew.new waiting.new }
    ensures fewer { IsFewer waiting.old waiting.new }
    ensures still { IsStill crew.old crew.new }
    ensures same_halt { crew.new.halt ≡ crew.old.halt }
{
    replies_are_kinds();
    let Some(held) = waiting.take(sim) else {
        unreachable!()
    };
    send_at(core, crew, kinds, sim, held.place, held.id)
}

// Sends what waits of a simulator before its next Step.
fn send_behind(
    core: &Core,
    crew: &mut Crew,
    kinds: &Registry,
    waiting: &mut Waiting,
    sim: SimNo,
) -> Result<(), Outcome>
    requires known { AreOf (rows_in kinds.now) (within_of crew.old) }
    requires there { sim.0 < length waiting.old.holds }
    requires goes { (S : Setting) × (log : List LogEntry)
        × GoesOnBut sim.0 S core.now log crew.old waiting.old }
    ensures sent { SendsBehindAs result sim.0 core.now crew.old waiting.old crew.new waiting.new }
    ensures no_more { IsNoMore waiting.old waiting.new }
    ensures still { IsStill crew.old crew.new }
    ensures same_halt { crew.new.halt ≡ crew.old.halt }
{
    'behind: loop {
        if !is_behind(waiting, sim) {
            return Ok(());
        }
        if let Err(end) = send_next(core, crew, kinds, waiting, sim) {
            return Err(end);
        }
    }
}

// Sends the Step that waits first, and notes its moment. Where it isn't sent, no moment of it is
// kept.
fn send_step(
    core: &Core,
    crew: &mut Crew,
    kinds: &Registry,
    waiting: &mut Waiting,
    first: First,
    told: u64,
) -> Result<(), Outcome>
    requires known { AreOf (rows_in kinds.now) (within_of crew.old) }
    requires first { IsFirst first waiting.old.holds }
    requires due { first.due.moment ≤ told }
    requires in_time { (allowed : ℕ) → waiting.old.strict ≡ Some allowed
        → told ≤ first.due.moment + allowed }
    requires goes { (S : Setting) × (log : List LogEntry)
        × GoesOn S core.now log crew.old waiting.old × HasJustTold told log }
    ensures sent { SendsStepAs result first.sim.0 told core.now crew.old waiting.old crew.new
        waiting.new }
    ensures fewer { OnOk result (IsFewer waiting.old waiting.new) }
    ensures on_tempo { IsOnTempo waiting.old waiting.new }
    ensures still { IsStill crew.old crew.new }
    ensures same_halt { crew.new.halt ≡ crew.old.halt }
{
    replies_are_kinds();
    let moment = Moment {
        sim: first.sim,
        at: first.due.at,
        moment: first.due.moment,
        told,
    };
    if let Err(_) = waiting.push(moment) {
        return Err(Outcome::Mem);
    }
    let Some(held) = waiting.take(first.sim) else {
        unreachable!()
    };
    match send_at(core, crew, kinds, first.sim, held.place, held.id) {
        Ok(()) => Ok(()),
        Err(end) => {
            waiting.pop();
            Err(end)
        }
    }
}

// Sends the Step that waits first, and what stands right behind it.
fn send_first(
    core: &Core,
    crew: &mut Crew,
    kinds: &Registry,
    waiting: &mut Waiting,
    first: First,
    told: u64,
) -> Result<(), Outcome>
    requires known { AreOf (rows_in kinds.now) (within_of crew.old) }
    requires first { IsFirst first waiting.old.holds }
    requires due { first.due.moment ≤ told }
    requires in_time { (allowed : ℕ) → waiting.old.strict ≡ Some allowed
        → told ≤ first.due.moment + allowed }
    requires goes { (S : Setting) × (log : List LogEntry)
        × GoesOn S core.now log crew.old waiting.old × HasJustTold told log }
    ensures sent { SendsFirstAs result told core.now crew.old waiting.old crew.new waiting.new }
    ensures fewer { OnOk result (IsFewer waiting.old waiting.new) }
    ensures on_tempo { IsOnTempo waiting.old waiting.new }
    ensures still { IsStill crew.old crew.new }
    ensures same_halt { crew.new.halt ≡ crew.old.halt }
{
    match send_step(core, crew, kinds, waiting, first, told) {
        Ok(()) => send_behind(core, crew, kinds, waiting, first.sim),
        Err(end) => Err(end),
    }
}

// Sends the Steps whose moments aren't later than this reading of the clock, in the order of their
// moments and then of asking, each with what stands right behind it; or finds the first of them
// later than is allowed.
pub fn send_due(
    core: &Core,
    crew: &mut Crew,
    kinds: &Registry,
    waiting: &mut Waiting,
    told: u64,
) -> Result<(), PaceEnd>
    requires known { AreOf (rows_in kinds.now) (within_of crew.old) }
    requires underway { (S : Setting) × (log : List LogEntry)
        × GoesOn S core.now log crew.old waiting.old × HasJustTold told log }
    ensures sent { SendsDueAs result told core.now crew.old waiting.old crew.new waiting.new }
    ensures still { IsStill crew.old crew.new }
    ensures same_halt { crew.new.halt ≡ crew.old.halt }
    ensures on_tempo { IsOnTempo waiting.old waiting.new }
{
    'sending: loop {
        let Some(first) = waiting.first() else {
            return Ok(());
        };
        if told < first.due.moment {
            return Ok(());
        }
        if let Some(late) = waiting.too_late(first, told) {
            return Err(late);
        }
        if let Err(end) = send_first(core, crew, kinds, waiting, first, told) {
            return Err(PaceEnd::Outcome(end));
        }
    }
}
