//! The loop of a resumed run: one message is heard, whoever is ready then is asked, and what the journal has got by that
//! is shown. A message is one that its simulator has to send again, or the core takes it.
ghost use Rattle.std.specs.Prelude.{◌≡◌, ◌≤◌, ◌<◌, ◌+◌, ◌⊎◌, ℕ, List, [], None, Some, Err, IfErr, OnErr, OnOk, true, false, length, drop, slice_get};
ghost use Rattle.mk_outside.specs.declared.fleet.LogEntry.{LogEntry};
ghost use Rattle.mk_local.specs.Registries.{rows_in};
ghost use Rattle.mk_plan.specs.declared.Entry.{Entry};
ghost use Rattle.mk_plan.specs.declared.Entry.TheVariants.{Got};
ghost use Rattle.mk_plan.specs.declared.Message.{Message};
ghost use Rattle.mk_plan.specs.Plans.{sim_count};
ghost use Rattle.mk_run_links.specs.Places.{AreOpen};
ghost use Rattle.mk_run_local.specs.Seen.{AreOf};
ghost use Rattle.mk_run_crew.specs.Seen.{within_of};
ghost use Rattle.mk_run.specs.inner.Underway.{Setting};
ghost use Rattle.mk_run.specs.inner.Turns.{AreLinksOpen, GrowsBy, IsStill};
ghost use Rattle.mk_resume_links.specs.Rests.{Counts};
ghost use Rattle.mk_resume_loop.specs.declared.behind.Standing.{Standing};
ghost use Rattle.mk_resume_loop.specs.inner.Turns.{GoesOn, IsPast, AsksAllAs, TakesAs, TurnsAs, Waits};
ghost use Rattle.mk_resume_loop.specs.declared.ending.ResumeEnd.TheVariants as ends;
ghost use Rattle.mk_resume_loop.specs.declared.ending.Pause.TheVariants as pauses;
ghost use Rattle.mk_resume_loop.specs.inner.Comparisons.{IsApart};
ghost use Rattle.mk_resume_loop.specs.inner.Standings.{HasNobody, HasSomebody};
ghost use Rattle.mk_run.specs.declared.outcome.Outcome.{Outcome};
ghost use Rattle.mk_run.specs.declared.outcome.Outcome.TheVariants as outcome;
ghost use Rattle.mk_run.specs.inner.Sendings.{CanSend, EndsWithItem, IsUnsent};
ghost use Rattle.mk_run_crew.specs.Calls.{SendsAs};
ghost use Rattle.mk_local.specs.declared.turn.Turn.{Turn};
ghost use Rattle.mk_plan.specs.declared.Item.{Item};
ghost use Rattle.mk_resume_loop.specs.inner.Asking.{AsksAs};
ghost use Rattle.mk_plan.specs.Messages.{is_message_in_range};
ghost use Rattle.mk_onlooker.specs.Showings.{AddsBatch, AddsItems, IsShown};

use crate::behind::{Behind, Standing};
use crate::ending::{Pause, ResumeEnd};
use crate::resending::go_on;
use mk_base::SimNo;
use mk_local::Registry;
use mk_onlooker::{Onlooker, show};
use mk_outside::Fleet;
use mk_plan::{Entry, Message};
use mk_record_compare::same_message;
use mk_run::{Outcome, send_last};
use mk_run_crew::Crew;
use mk_run_local::replies_are_kinds;
use mk_sched::{Core, Next, Taken};
use std::alloc::Global;
use std::sync::Wait;

// Asks whoever is ready, until nobody is. One that is behind gets its Step when it comes to it.
fn ask_all(
    core: &mut Core,
    crew: &mut Crew,
    kinds: &Registry,
    behind: &Behind,
) -> Result<Pause, ResumeEnd>
    requires going { core.old.ended ≡ None }
    requires known { AreOf (rows_in kinds.now) (within_of crew.old) }
    requires underway { (T : Setting) × (first : List Entry) × (heard : Counts)
        × (log : List LogEntry) × GoesOn T first heard core.old log crew.old behind.now }
    ensures asked_all { AsksAllAs result core.old crew.old core.new crew.new behind.now }
    ensures items { AddsItems core.old.entries core.new.entries }
    ensures same_plan { core.new.plan ≡ core.old.plan }
    ensures still { IsStill crew.old crew.new }
    ensures same_halt { crew.new.halt ≡ crew.old.halt }
{
    replies_are_kinds();
    'asking: loop {
        match core.next()? {
            Next::Ask(sim) => ask(core, crew, kinds, behind, sim)?,
            Next::Wait => return Ok(Pause::Waiting),
            Next::Done => return Ok(Pause::Over),
            Next::Fault(fault) => return Err(ResumeEnd::Outcome(Outcome::Core(fault))),
        }
    }
}

// Sends a simulator that has caught up the Step that the journal ends with.
fn ask(
    core: &Core,
    crew: &mut Crew,
    kinds: &Registry,
    behind: &Behind,
    sim: SimNo,
) -> Result<(), ResumeEnd>
    requires going { core.now.ended ≡ None }
    requires there { sim.0 < sim_count core.now.plan }
    requires sized { length behind.now.sims ≡ sim_count core.now.plan }
    requires known { AreOf (rows_in kinds.now) (within_of crew.old) }
    requires due { slice_get behind.now.sims sim.0 ≡ Some None → CanSend core.now sim crew.old }
    ensures asked { AsksAs result core.now sim crew.old crew.new behind.now }
    ensures still { IsStill crew.old crew.new }
    ensures same_halt { crew.new.halt ≡ crew.old.halt }
{
    match behind.standing(sim) {
        Some(_) => Ok(()),
        None => send(core, crew, kinds, sim),
    }
}

// Sends the simulator the item that the journal ends with.
fn send(core: &Core, crew: &mut Crew, kinds: &Registry, sim: SimNo) -> Result<(), ResumeEnd>
    requires going { core.now.ended ≡ None }
    requires there { sim.0 < sim_count core.now.plan }
    requires known { AreOf (rows_in kinds.now) (within_of crew.old) }
    requires due { CanSend core.now sim crew.old }
    ensures sent { OnOk result ((item : Item) → (id : ℕ) → EndsWithItem core.now sim item id
        → SendsAs sim.0 item id crew.old crew.new) }
    ensures unsent { IfErr result (λ end. (item : Item) → (id : ℕ)
        → EndsWithItem core.now sim item id → (o : Outcome) × (end ≡ ends.Outcome o)
        × IsUnsent o sim.0 item crew.old) }
    ensures err { OnErr result (crew.new ≡ crew.old) }
    ensures same_places { crew.new.places ≡ crew.old.places }
    ensures same_halt { crew.new.halt ≡ crew.old.halt }
    ensures kinds { (rows : List Turn) → AreOf rows (within_of crew.old)
        → AreOf rows (within_of crew.new) }
{
    match send_last(core, crew, kinds, sim) {
        Ok(()) => Ok(()),
        Err(outcome) => Err(ResumeEnd::Outcome(outcome)),
    }
}

// Gives the core a message of a simulator that has caught up, and sends what it owes then.
fn take(
    core: &mut Core,
    crew: &mut Crew,
    kinds: &Registry,
    behind: &Behind,
    sim: SimNo,
    message: Message,
) -> Result<(), ResumeEnd>
    requires going { core.old.ended ≡ None }
    requires there { sim.0 < sim_count core.old.plan }
    requires form { is_message_in_range message ≡ true }
    requires known { AreOf (rows_in kinds.now) (within_of crew.old) }
    requires caught { slice_get behind.now.sims sim.0 ≡ Some None }
    requires heard { (T : Setting) × (first : List Entry) × (heard : Counts)
        × (log : List LogEntry)
        × IsPast T first heard core.old log sim message crew.old behind.now }
    ensures taken { TakesAs result sim message core.old crew.old behind.now core.new crew.new
        behind.now }
    ensures batch { AddsBatch core.old.entries core.new.entries }
    ensures same_plan { core.new.plan ≡ core.old.plan }
    ensures still { IsStill crew.old crew.new }
    ensures same_halt { crew.new.halt ≡ crew.old.halt }
{
    replies_are_kinds();
    match core.take(sim, message)? {
        Taken::Quiet => Ok(()),
        Taken::Send => send(core, crew, kinds, sim),
        Taken::Fault(fault) => Err(ResumeEnd::Outcome(Outcome::Core(fault))),
    }
}

// The message at this place of the journal.
fn message_at(core: &Core, place: usize) -> &Message
    requires { (sim : SimNo) × (m : Message)
        × (slice_get core.now.entries place ≡ Some (Got sim m)) }
    ensures { (sim : SimNo) × (slice_get core.now.entries place ≡ Some (Got sim result.now)) }
{
    let Entry::Got(_, message) = &core.journal().entries.as_slice()[place] else {
        unreachable!()
    };
    message
}

// The number of a message among its simulator's, from 0, up to and with which so many of its
// entries stand: each item is followed by one message.
fn message_number(gone: usize) -> u64
    requires { 2 ≤ gone }
    ensures { (n : ℕ) → gone ≡ n + n + 2 → result ≡ n }
{
    (gone / 2 - 1) as u64
}

// Compares a message with the saved one, which its simulator has to send again; or the run ends.
fn compare(
    alloc: Global,
    kept: &Message,
    sim: SimNo,
    number: u64,
    message: Message,
) -> Result<(), ResumeEnd>
    ensures same { OnOk result (kept.now ≡ message) }
    ensures apart { IfErr result (λ end. IsApart end sim number kept.now message) }
{
    if same_message(kept, &message) {
        return Ok(());
    }
    Err(ResumeEnd::Differs {
        sim,
        place: number,
        kept: kept.copy(alloc)?,
        heard: message,
    })
}

// Takes a message that a simulator has to send again, and sends what is free then.
fn repeat(
    alloc: Global,
    core: &Core,
    crew: &mut Crew,
    kinds: &Registry,
    behind: &mut Behind,
    sim: SimNo,
    message: Message,
    at: Standing,
) -> Result<(), ResumeEnd>
    requires going { core.now.ended ≡ None }
    requires there { sim.0 < sim_count core.now.plan }
    requires known { AreOf (rows_in kinds.now) (within_of crew.old) }
    requires stands { slice_get behind.old.sims sim.0 ≡ Some (Some at) }
    requires heard { (T : Setting) × (first : List Entry) × (heard : Counts)
        × (log : List LogEntry)
        × IsPast T first heard core.now log sim message crew.old behind.old }
    ensures repeated { TakesAs result sim message core.now crew.old behind.old core.now crew.new
        behind.new }
    ensures still { IsStill crew.old crew.new }
    ensures same_halt { crew.new.halt ≡ crew.old.halt }
{
    let kept = message_at(core, at.place);
    compare(alloc, kept, sim, message_number(at.gone), message)?;
    go_on(core, crew, kinds, behind, sim, at.gone, at.id)
}

// Takes the message that was heard: one that its simulator has to send again, or one for the core.
fn accept(
    alloc: Global,
    core: &mut Core,
    crew: &mut Crew,
    kinds: &Registry,
    behind: &mut Behind,
    sim: SimNo,
    message: Message,
) -> Result<(), ResumeEnd>
    requires going { core.old.ended ≡ None }
    requires there { sim.0 < sim_count core.old.plan }
    requires form { is_message_in_range message ≡ true }
    requires known { AreOf (rows_in kinds.now) (within_of crew.old) }
    requires heard { (T : Setting) × (first : List Entry) × (heard : Counts)
        × (log : List LogEntry)
        × IsPast T first heard core.old log sim message crew.old behind.old }
    ensures taken { TakesAs result sim message core.old crew.old behind.old core.new crew.new
        behind.new }
    ensures batch { AddsBatch core.old.entries core.new.entries }
    ensures same_plan { core.new.plan ≡ core.old.plan }
    ensures still { IsStill crew.old crew.new }
    ensures same_halt { crew.new.halt ≡ crew.old.halt }
{
    match behind.standing(sim) {
        Some(at) => repeat(alloc, core, crew, kinds, behind, sim, message, at),
        None => take(core, crew, kinds, behind, sim, message),
    }
}

// Hears the next message, and takes it.
fn hear<F: Fleet, R: Wait>(
    rt: &R,
    alloc: Global,
    core: &mut Core,
    crew: &mut Crew,
    fleet: &mut F,
    kinds: &Registry,
    behind: &mut Behind,
) -> Result<(), ResumeEnd>
    requires going { core.old.ended ≡ None }
    requires unhalted { crew.old.halt ≡ None }
    requires known { AreOf (rows_in kinds.now) (within_of crew.old) }
    requires waits { Waits core.old behind.old }
    requires open { AreOpen crew.old.channels (F.open_links fleet.old) }
    requires underway { (T : Setting) × (first : List Entry) × (heard : Counts)
        × (log : List LogEntry) × GoesOn T first heard core.old log crew.old behind.old }
    ensures count { F.faults fleet.old ≤ F.faults fleet.new }
    ensures same_count { F.started fleet.new ≡ F.started fleet.old }
    ensures same_links { F.open_links fleet.new ≡ F.open_links fleet.old }
    ensures turned { GrowsBy F.log F.faults fleet.old fleet.new
        (λ entries risen. TurnsAs result entries risen core.old crew.old behind.old core.new
        crew.new behind.new) }
    ensures batch { AddsBatch core.old.entries core.new.entries }
    ensures same_plan { core.new.plan ≡ core.old.plan }
    ensures still { IsStill crew.old crew.new }
    ensures unhalted { OnOk result (crew.new.halt ≡ None) }
{
    match crew.hear(rt, fleet) {
        Ok((sim, message)) => accept(alloc, core, crew, kinds, behind, sim, message),
        Err(halt) => Err(ResumeEnd::Outcome(Outcome::from(halt))),
    }
}

// Nothing is left to do, and nobody is behind.
fn is_over(pause: &Pause, behind: &Behind) -> bool
    ensures over { result ≡ true → (pause.now ≡ pauses.Over) × HasNobody behind.now }
    ensures going { result ≡ false → (pause.now ≡ pauses.Waiting) ⊎ HasSomebody behind.now }
{
    match pause {
        Pause::Waiting => false,
        Pause::Over => !behind.is_anybody(),
    }
}

// Asks whoever is ready. It is over where nothing is left to do and nobody is behind.
fn ask_on(
    core: &mut Core,
    crew: &mut Crew,
    kinds: &Registry,
    behind: &Behind,
) -> Result<(), ResumeEnd>
    requires going { core.old.ended ≡ None }
    requires known { AreOf (rows_in kinds.now) (within_of crew.old) }
    requires underway { (T : Setting) × (first : List Entry) × (heard : Counts)
        × (log : List LogEntry) × GoesOn T first heard core.old log crew.old behind.now }
    ensures asked { TurnsAs result [] ⊥ core.old crew.old behind.now core.new crew.new behind.now }
    ensures waits { OnOk result (Waits core.new behind.now) }
    ensures items { AddsItems core.old.entries core.new.entries }
    ensures same_plan { core.new.plan ≡ core.old.plan }
    ensures still { IsStill crew.old crew.new }
    ensures same_halt { crew.new.halt ≡ crew.old.halt }
{
    let pause = ask_all(core, crew, kinds, behind)?;
    if is_over(&pause, behind) {
        return Err(ResumeEnd::Outcome(Outcome::Done));
    }
    Ok(())
}

// Asks whoever is ready at first, and shows all that there is.
fn ask_first<O: Onlooker>(
    core: &mut Core,
    crew: &mut Crew,
    kinds: &Registry,
    behind: &Behind,
    onlooker: &mut O,
) -> Result<(), ResumeEnd>
    requires going { core.old.ended ≡ None }
    requires known { AreOf (rows_in kinds.now) (within_of crew.old) }
    requires underway { (T : Setting) × (first : List Entry) × (heard : Counts)
        × (log : List LogEntry) × GoesOn T first heard core.old log crew.old behind.now }
    ensures asked { TurnsAs result [] ⊥ core.old crew.old behind.now core.new crew.new behind.now }
    ensures waits { OnOk result (Waits core.new behind.now) }
    ensures shown { IsShown O.looks core.new.plan true core.old.entries core.new.entries onlooker.old
        onlooker.new }
    ensures same_plan { core.new.plan ≡ core.old.plan }
    ensures still { IsStill crew.old crew.new }
    ensures same_halt { crew.new.halt ≡ crew.old.halt }
{
    let result = ask_on(core, crew, kinds, behind);
    show(onlooker, core.plan(), core.journal(), 0, true);
    result
}

// Hears one message, and asks whoever is ready then.
fn hear_and_ask<F: Fleet, R: Wait>(
    rt: &R,
    alloc: Global,
    core: &mut Core,
    crew: &mut Crew,
    fleet: &mut F,
    kinds: &Registry,
    behind: &mut Behind,
) -> Result<(), ResumeEnd>
    requires going { core.old.ended ≡ None }
    requires unhalted { crew.old.halt ≡ None }
    requires known { AreOf (rows_in kinds.now) (within_of crew.old) }
    requires waits { Waits core.old behind.old }
    requires underway { (T : Setting) × (first : List Entry) × (heard : Counts)
        × (log : List LogEntry) × GoesOn T first heard core.old log crew.old behind.old
        × AreLinksOpen T (F.open_links fleet.old) }
    ensures count { F.faults fleet.old ≤ F.faults fleet.new }
    ensures same_count { F.started fleet.new ≡ F.started fleet.old }
    ensures same_links { F.open_links fleet.new ≡ F.open_links fleet.old }
    ensures turned { GrowsBy F.log F.faults fleet.old fleet.new
        (λ entries risen. TurnsAs result entries risen core.old crew.old behind.old core.new
        crew.new behind.new) }
    ensures waits { OnOk result (Waits core.new behind.new) }
    ensures batch { AddsBatch core.old.entries core.new.entries }
    ensures same_plan { core.new.plan ≡ core.old.plan }
    ensures still { IsStill crew.old crew.new }
    ensures unhalted { OnOk result (crew.new.halt ≡ None) }
{
    hear(rt, alloc, core, crew, fleet, kinds, behind)?;
    ask_on(core, crew, kinds, behind)
}

// Hears one message, asks whoever is ready then, and shows what the journal has got by that.
fn turn<F: Fleet, R: Wait, O: Onlooker>(
    rt: &R,
    alloc: Global,
    core: &mut Core,
    crew: &mut Crew,
    fleet: &mut F,
    kinds: &Registry,
    behind: &mut Behind,
    onlooker: &mut O,
) -> Result<(), ResumeEnd>
    requires going { core.old.ended ≡ None }
    requires unhalted { crew.old.halt ≡ None }
    requires known { AreOf (rows_in kinds.now) (within_of crew.old) }
    requires waits { Waits core.old behind.old }
    requires underway { (T : Setting) × (first : List Entry) × (heard : Counts)
        × (log : List LogEntry) × GoesOn T first heard core.old log crew.old behind.old
        × AreLinksOpen T (F.open_links fleet.old) }
    ensures count { F.faults fleet.old ≤ F.faults fleet.new }
    ensures same_count { F.started fleet.new ≡ F.started fleet.old }
    ensures same_links { F.open_links fleet.new ≡ F.open_links fleet.old }
    ensures turned { GrowsBy F.log F.faults fleet.old fleet.new
        (λ entries risen. TurnsAs result entries risen core.old crew.old behind.old core.new
        crew.new behind.new) }
    ensures waits { OnOk result (Waits core.new behind.new) }
    ensures batch { AddsBatch core.old.entries core.new.entries }
    ensures same_plan { core.new.plan ≡ core.old.plan }
    ensures shown { O.looks onlooker.old core.new.plan
        (drop (length core.old.entries) core.new.entries) true onlooker.new }
    ensures still { IsStill crew.old crew.new }
    ensures unhalted { OnOk result (crew.new.halt ≡ None) }
{
    let shown = core.journal().entries.len();
    let result = hear_and_ask(rt, alloc, core, crew, fleet, kinds, behind);
    show(onlooker, core.plan(), core.journal(), shown, true);
    result
}

/// Goes on until the first end. Whoever is ready is asked, and all that the journal has is shown. Then one message is
/// heard at a time, which its simulator has to send again or the core takes; whoever is ready then is asked; and what
/// the journal has got by that is shown, also at the end.
pub fn drive<F: Fleet, R: Wait, O: Onlooker>(
    rt: &R,
    alloc: Global,
    core: &mut Core,
    crew: &mut Crew,
    fleet: &mut F,
    kinds: &Registry,
    behind: &mut Behind,
    onlooker: &mut O,
) -> ResumeEnd
    requires going { core.old.ended ≡ None }
    requires unhalted { crew.old.halt ≡ None }
    requires known { AreOf (rows_in kinds.now) (within_of crew.old) }
    requires underway { (T : Setting) × (first : List Entry) × (heard : Counts)
        × (log : List LogEntry) × GoesOn T first heard core.old log crew.old behind.old
        × AreLinksOpen T (F.open_links fleet.old) }
    ensures count { F.faults fleet.old ≤ F.faults fleet.new }
    ensures same_count { F.started fleet.new ≡ F.started fleet.old }
    ensures same_links { F.open_links fleet.new ≡ F.open_links fleet.old }
    ensures ended { GrowsBy F.log F.faults fleet.old fleet.new
        (λ entries risen. TurnsAs (Err result) entries risen core.old crew.old behind.old core.new
        crew.new behind.new) }
    ensures shown { IsShown O.looks core.new.plan true core.old.entries core.new.entries onlooker.old
        onlooker.new }
    ensures same_plan { core.new.plan ≡ core.old.plan }
    ensures still { IsStill crew.old crew.new }
{
    match ask_first(core, crew, kinds, behind, onlooker) {
        Ok(()) => {}
        Err(end) => return end,
    }
    for _ in rt.forever() {
        match turn(rt, alloc, core, crew, fleet, kinds, behind, onlooker) {
            Ok(()) => {}
            Err(end) => return end,
        }
    }
    unreachable!()
}
