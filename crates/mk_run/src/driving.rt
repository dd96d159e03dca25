//! The loop of a run: one message is heard and taken, whoever is ready is asked, and what is new is shown, until the
//! first outcome.
ghost use Rattle.std.specs.Prelude.{◌≡◌, ◌≤◌, ◌<◌, List, None, Err, IfErr, OnOk, true, drop, length};
ghost use Rattle.mk_outside.specs.declared.fleet.LogEntry.{LogEntry};
ghost use Rattle.mk_local.specs.Registries.{rows_in};
ghost use Rattle.mk_plan.specs.Plans.{sim_count};
ghost use Rattle.mk_run_links.specs.Places.{AreOpen};
ghost use Rattle.mk_run_local.specs.Seen.{AreOf};
ghost use Rattle.mk_run_crew.specs.Seen.{within_of};
ghost use Rattle.mk_run.specs.inner.Underway.{Setting};
ghost use Rattle.mk_run.specs.inner.Turns.{AreLinksOpen, GetsBatch, GetsItems, GoesOn, GrowsBy, IsLinkedIfLong, IsLonger, IsPast, IsStill, AsksAllAs, TakesAs, TurnsAs, Waits};
ghost use Rattle.mk_onlooker.specs.Showings.{IsShown, IsShownOn};
ghost use Rattle.mk_plan.specs.Messages.{is_message_in_range};

use crate::outcome::Outcome;
use crate::sending::send_last;
use mk_base::SimNo;
use mk_local::Registry;
use mk_onlooker::{Onlooker, show};
use mk_outside::Fleet;
use mk_plan::Message;
use mk_run_crew::Crew;
use mk_run_local::replies_are_kinds;
use mk_sched::{Core, Next, Taken};
use std::sync::Wait;

// Asks whoever is ready, until nobody is.
pub fn ask_all(core: &mut Core, crew: &mut Crew, kinds: &Registry) -> Result<(), Outcome>
    requires going { core.old.ended ≡ None }
    requires known { AreOf (rows_in kinds.now) (within_of crew.old) }
    requires underway { (T : Setting) × (log : List LogEntry) × GoesOn T core.old log crew.old }
    ensures asked_all { AsksAllAs result core.old crew.old core.new crew.new }
    ensures items { GetsItems core.old core.new }
    ensures long { IfErr result (IsLinkedIfLong crew.new) }
    ensures still { IsStill crew.old crew.new }
    ensures same_halt { crew.new.halt ≡ crew.old.halt }
{
    replies_are_kinds();
    'asking: loop {
        match core.next()? {
            Next::Ask(sim) => send_last(core, crew, kinds, sim)?,
            Next::Wait => return Ok(()),
            Next::Done => return Err(Outcome::Done),
            Next::Fault(fault) => return Err(Outcome::Core(fault)),
        }
    }
}

// Gives the core a message that was heard, and sends what it owes then.
pub fn take(
    core: &mut Core,
    crew: &mut Crew,
    kinds: &Registry,
    sim: SimNo,
    message: Message,
) -> Result<(), Outcome>
    requires going { core.old.ended ≡ None }
    requires there { sim.0 < sim_count core.old.plan }
    requires form { is_message_in_range message ≡ true }
    requires known { AreOf (rows_in kinds.now) (within_of crew.old) }
    requires heard { (T : Setting) × (log : List LogEntry)
        × IsPast T core.old log sim message crew.old }
    ensures taken { TakesAs result sim message core.old crew.old core.new crew.new }
    ensures grown { OnOk result (IsLonger core.old core.new) }
    ensures batch { GetsBatch core.old core.new }
    ensures long { IfErr result (IsLinkedIfLong crew.new) }
    ensures still { IsStill crew.old crew.new }
    ensures same_halt { crew.new.halt ≡ crew.old.halt }
{
    replies_are_kinds();
    match core.take(sim, message)? {
        Taken::Quiet => Ok(()),
        Taken::Send => send_last(core, crew, kinds, sim),
        Taken::Fault(fault) => Err(Outcome::Core(fault)),
    }
}

// Hears the next message, and gives it to the core.
fn hear<F: Fleet, R: Wait>(
    rt: &R,
    core: &mut Core,
    crew: &mut Crew,
    fleet: &mut F,
    kinds: &Registry,
) -> Result<(), Outcome>
    requires going { core.old.ended ≡ None }
    requires unhalted { crew.old.halt ≡ None }
    requires known { AreOf (rows_in kinds.now) (within_of crew.old) }
    requires waits { Waits core.old }
    requires open { AreOpen crew.old.channels (F.open_links fleet.old) }
    requires underway { (T : Setting) × (log : List LogEntry) × GoesOn T core.old log crew.old }
    ensures count { F.faults fleet.old ≤ F.faults fleet.new }
    ensures same_count { F.started fleet.new ≡ F.started fleet.old }
    ensures same_links { F.open_links fleet.new ≡ F.open_links fleet.old }
    ensures turned { GrowsBy F.log F.faults fleet.old fleet.new
        (λ entries risen. TurnsAs result entries risen core.old crew.old core.new crew.new) }
    ensures batch { GetsBatch core.old core.new }
    ensures still { IsStill crew.old crew.new }
    ensures unhalted { OnOk result (crew.new.halt ≡ None) }
{
    match crew.hear(rt, fleet) {
        Ok((sim, message)) => take(core, crew, kinds, sim, message),
        Err(halt) => Err(Outcome::from(halt)),
    }
}

// Hears one message, and asks whoever is ready then.
fn go_on<F: Fleet, R: Wait>(
    rt: &R,
    core: &mut Core,
    crew: &mut Crew,
    fleet: &mut F,
    kinds: &Registry,
) -> Result<(), Outcome>
    requires going { core.old.ended ≡ None }
    requires unhalted { crew.old.halt ≡ None }
    requires known { AreOf (rows_in kinds.now) (within_of crew.old) }
    requires waits { Waits core.old }
    requires underway { (T : Setting) × (log : List LogEntry) × GoesOn T core.old log crew.old
        × AreLinksOpen T (F.open_links fleet.old) }
    ensures count { F.faults fleet.old ≤ F.faults fleet.new }
    ensures same_count { F.started fleet.new ≡ F.started fleet.old }
    ensures same_links { F.open_links fleet.new ≡ F.open_links fleet.old }
    ensures turned { GrowsBy F.log F.faults fleet.old fleet.new
        (λ entries risen. TurnsAs result entries risen core.old crew.old core.new crew.new) }
    ensures batch { GetsBatch core.old core.new }
    ensures waits { OnOk result (Waits core.new) }
    ensures still { IsStill crew.old crew.new }
    ensures unhalted { OnOk result (crew.new.halt ≡ None) }
{
    hear(rt, core, crew, fleet, kinds)?;
    ask_all(core, crew, kinds)
}

// Hears one message, asks whoever is ready then, and shows what the journal has got.
fn turn<F: Fleet, R: Wait, O: Onlooker>(
    rt: &R,
    core: &mut Core,
    crew: &mut Crew,
    fleet: &mut F,
    kinds: &Registry,
    onlooker: &mut O,
) -> Result<(), Outcome>
    requires going { core.old.ended ≡ None }
    requires unhalted { crew.old.halt ≡ None }
    requires known { AreOf (rows_in kinds.now) (within_of crew.old) }
    requires waits { Waits core.old }
    requires underway { (T : Setting) × (log : List LogEntry) × GoesOn T core.old log crew.old
        × AreLinksOpen T (F.open_links fleet.old) }
    ensures count { F.faults fleet.old ≤ F.faults fleet.new }
    ensures same_count { F.started fleet.new ≡ F.started fleet.old }
    ensures same_links { F.open_links fleet.new ≡ F.open_links fleet.old }
    ensures turned { GrowsBy F.log F.faults fleet.old fleet.new
        (λ entries risen. TurnsAs result entries risen core.old crew.old core.new crew.new) }
    ensures batch { GetsBatch core.old core.new }
    ensures shown { O.looks onlooker.old core.new.plan
        (drop (length core.old.entries) core.new.entries) true onlooker.new }
    ensures waits { OnOk result (Waits core.new) }
    ensures still { IsStill crew.old crew.new }
    ensures unhalted { OnOk result (crew.new.halt ≡ None) }
{
    let shown = core.journal().entries.len();
    let result = go_on(rt, core, crew, fleet, kinds);
    show(onlooker, core.plan(), core.journal(), shown, true);
    result
}

// Asks whoever is ready before anything is heard, and shows all that there is then.
pub fn begin<O: Onlooker>(
    core: &mut Core,
    crew: &mut Crew,
    kinds: &Registry,
    onlooker: &mut O,
    is_pause: bool,
) -> Result<(), Outcome>
    requires going { core.old.ended ≡ None }
    requires known { AreOf (rows_in kinds.now) (within_of crew.old) }
    requires underway { (T : Setting) × (log : List LogEntry) × GoesOn T core.old log crew.old }
    ensures asked_all { AsksAllAs result core.old crew.old core.new crew.new }
    ensures items { GetsItems core.old core.new }
    ensures shown { O.looks onlooker.old core.new.plan (drop 0 core.new.entries) is_pause
        onlooker.new }
    ensures long { IfErr result (IsLinkedIfLong crew.new) }
    ensures still { IsStill crew.old crew.new }
    ensures same_halt { crew.new.halt ≡ crew.old.halt }
{
    let result = ask_all(core, crew, kinds);
    show(onlooker, core.plan(), core.journal(), 0, is_pause);
    result
}

// Goes on until the first outcome.
fn drive_on<F: Fleet, R: Wait, O: Onlooker>(
    rt: &R,
    core: &mut Core,
    crew: &mut Crew,
    fleet: &mut F,
    kinds: &Registry,
    onlooker: &mut O,
) -> Outcome
    requires going { core.old.ended ≡ None }
    requires unhalted { crew.old.halt ≡ None }
    requires known { AreOf (rows_in kinds.now) (within_of crew.old) }
    requires waits { Waits core.old }
    requires underway { (T : Setting) × (log : List LogEntry) × GoesOn T core.old log crew.old
        × AreLinksOpen T (F.open_links fleet.old) }
    ensures count { F.faults fleet.old ≤ F.faults fleet.new }
    ensures same_count { F.started fleet.new ≡ F.started fleet.old }
    ensures same_links { F.open_links fleet.new ≡ F.open_links fleet.old }
    ensures ended { GrowsBy F.log F.faults fleet.old fleet.new
        (λ entries risen. TurnsAs (Err result) entries risen core.old crew.old core.new crew.new) }
    ensures same_plan { core.new.plan ≡ core.old.plan }
    ensures shown { IsShownOn O.looks core.old.plan true core.old.entries core.new.entries
        onlooker.old onlooker.new }
    ensures still { IsStill crew.old crew.new }
{
    for _ in rt.forever() {
        match turn(rt, core, crew, fleet, kinds, onlooker) {
            Ok(()) => {}
            Err(outcome) => return outcome,
        }
    }
    unreachable!()
}

// Asks whoever is ready, and goes on until the first outcome. All of the journal has been shown by then, and whenever
// anything is waited for.
pub fn drive<F: Fleet, R: Wait, O: Onlooker>(
    rt: &R,
    core: &mut Core,
    crew: &mut Crew,
    fleet: &mut F,
    kinds: &Registry,
    onlooker: &mut O,
) -> Outcome
    requires going { core.old.ended ≡ None }
    requires unhalted { crew.old.halt ≡ None }
    requires known { AreOf (rows_in kinds.now) (within_of crew.old) }
    requires underway { (T : Setting) × (log : List LogEntry) × GoesOn T core.old log crew.old
        × AreLinksOpen T (F.open_links fleet.old) }
    ensures count { F.faults fleet.old ≤ F.faults fleet.new }
    ensures same_count { F.started fleet.new ≡ F.started fleet.old }
    ensures same_links { F.open_links fleet.new ≡ F.open_links fleet.old }
    ensures ended { GrowsBy F.log F.faults fleet.old fleet.new
        (λ entries risen. TurnsAs (Err result) entries risen core.old crew.old core.new crew.new) }
    ensures shown { IsShown O.looks core.new.plan true core.old.entries core.new.entries
        onlooker.old onlooker.new }
    ensures still { IsStill crew.old crew.new }
{
    match begin(core, crew, kinds, onlooker, true) {
        Ok(()) => drive_on(rt, core, crew, fleet, kinds, onlooker),
        Err(outcome) => outcome,
    }
}
