//! The loop of a paced run: what is due is sent, a message is taken or the fleet sleeps, whoever is
//! ready then is asked, and what that added is shown.
ghost use Rattle.std.specs.Prelude.{◌≡◌, ◌≤◌, ◌<◌, ℕ, List, [], None, Some, Err, OnErr, OnOk, true, drop, length, slice_get};
ghost use Rattle.mk_outside.specs.declared.fleet.LogEntry.{LogEntry};
ghost use Rattle.mk_local.specs.Registries.{rows_in};
ghost use Rattle.mk_plan.specs.declared.Item.{Item};
ghost use Rattle.mk_plan.specs.Plans.{sim_count};
ghost use Rattle.mk_run_links.specs.Places.{AreOpen};
ghost use Rattle.mk_run_local.specs.Seen.{AreOf};
ghost use Rattle.mk_run_crew.specs.Seen.{CrewSeen, within_of};
ghost use Rattle.mk_run.specs.inner.Sendings.{CanSend, EndsWithItem};
ghost use Rattle.mk_run.specs.inner.Turns.{AreLinksOpen, GrowsBy, IsStill, Waits};
ghost use Rattle.mk_run.specs.inner.Underway.{Setting};
ghost use Rattle.mk_pace_loop.specs.inner.Turns.{AnswersAs, AsksAs, AttendsAs, GainsBatch, GainsItems, GoesOn, HasJustTold, IsPast, NapsAs, PassesAs, RisesOn, TakesAs, TurnsAs};
ghost use Rattle.mk_pace_loop.specs.inner.Waiting.{AreEarly, HasTime, IsHeldLast, IsInTime, IsOnTempo};
ghost use Rattle.mk_plan.specs.Messages.{is_message_in_range};
ghost use Rattle.mk_onlooker.specs.Showings.{IsShown};

use crate::sending::send_due;
use crate::waiting::Waiting;
use mk_base::{Mem, SimNo};
use mk_local::Registry;
use mk_onlooker::{Onlooker, show};
use mk_outside::{Now, Paced, Slept};
use mk_pace_held::Held;
use mk_pace_laws::PaceEnd;
use mk_plan::{Entry, Message};
use mk_run::{Outcome, send_last};
use mk_run_crew::Crew;
use mk_run_local::replies_are_kinds;
use mk_sched::{Core, Next, Taken};
use std::sync::Wait;

// Lets the item that the journal ends with wait behind what waits of its simulator.
fn hold_last(core: &Core, waiting: &mut Waiting, sim: SimNo) -> Result<(), Mem>
    requires going { core.now.ended ≡ None }
    requires there { sim.0 < sim_count core.now.plan }
    requires sized { length waiting.old.holds ≡ sim_count core.now.plan }
    requires last { (item : Item) × (id : ℕ) × EndsWithItem core.now sim item id × HasTime item }
    ensures held { OnOk result ((item : Item) → (id : ℕ) → EndsWithItem core.now sim item id
        → IsHeldLast core.now sim item id waiting.old waiting.new) }
    ensures err { OnErr result (waiting.new ≡ waiting.old) }
    ensures on_tempo { IsOnTempo waiting.old waiting.new }
{
    let Some(id) = core.id_of(sim) else {
        unreachable!()
    };
    let entries = core.journal().entries.as_slice();
    let Some(Entry::Sent(_, item)) = entries.last() else {
        unreachable!()
    };
    let due = waiting.due_of(item);
    waiting.hold(
        sim,
        Held {
            place: entries.len() - 1,
            id,
            due,
        },
    )
}

// Asks whoever is ready until nobody is; each Step waits. Nothing is sent.
fn ask_all(core: &mut Core, waiting: &mut Waiting) -> Result<(), Outcome>
    requires going { core.old.ended ≡ None }
    requires underway { (S : Setting) × (log : List LogEntry) × (C : CrewSeen)
        × GoesOn S core.old log C waiting.old }
    ensures asked { AsksAs result core.old waiting.old core.new waiting.new }
    ensures items { GainsItems core.old core.new }
    ensures on_tempo { IsOnTempo waiting.old waiting.new }
{
    'asking: loop {
        match core.next()? {
            Next::Ask(sim) => hold_last(core, waiting, sim)?,
            Next::Wait => return Ok(()),
            Next::Done => return Err(Outcome::Done),
            Next::Fault(fault) => return Err(Outcome::Core(fault)),
        }
    }
}

// Sends what the core owes after a message, or lets it wait behind what waits of the simulator.
fn answer(
    core: &Core,
    crew: &mut Crew,
    kinds: &Registry,
    waiting: &mut Waiting,
    sim: SimNo,
) -> Result<(), Outcome>
    requires going { core.now.ended ≡ None }
    requires there { sim.0 < sim_count core.now.plan }
    requires sized { length waiting.old.holds ≡ sim_count core.now.plan }
    requires known { AreOf (rows_in kinds.now) (within_of crew.old) }
    requires last { (item : Item) × (id : ℕ) × EndsWithItem core.now sim item id × HasTime item }
    requires due { slice_get waiting.old.holds sim.0 ≡ Some [] → CanSend core.now sim crew.old }
    ensures answered { (item : Item) → (id : ℕ) → EndsWithItem core.now sim item id
        → AnswersAs result core.now sim item id crew.old waiting.old crew.new waiting.new }
    ensures still { IsStill crew.old crew.new }
    ensures same_halt { crew.new.halt ≡ crew.old.halt }
    ensures on_tempo { IsOnTempo waiting.old waiting.new }
{
    if waiting.is_held(sim) {
        hold_last(core, waiting, sim)?;
        return Ok(());
    }
    send_last(core, crew, kinds, sim)
}

// Gives the core a message that was heard. What the core owes then is sent, or waits behind what
// waits of the simulator.
fn take(
    core: &mut Core,
    crew: &mut Crew,
    kinds: &Registry,
    waiting: &mut Waiting,
    sim: SimNo,
    message: Message,
) -> Result<(), Outcome>
    requires going { core.old.ended ≡ None }
    requires there { sim.0 < sim_count core.old.plan }
    requires form { is_message_in_range message ≡ true }
    requires known { AreOf (rows_in kinds.now) (within_of crew.old) }
    requires heard { (S : Setting) × (log : List LogEntry)
        × IsPast S core.old log sim message crew.old waiting.old }
    ensures taken { TakesAs result sim message core.old crew.old waiting.old core.new crew.new
        waiting.new }
    ensures batch { GainsBatch core.old core.new }
    ensures still { IsStill crew.old crew.new }
    ensures same_halt { crew.new.halt ≡ crew.old.halt }
    ensures on_tempo { IsOnTempo waiting.old waiting.new }
{
    replies_are_kinds();
    match core.take(sim, message)? {
        Taken::Quiet => Ok(()),
        Taken::Send => answer(core, crew, kinds, waiting, sim),
        Taken::Fault(fault) => Err(Outcome::Core(fault)),
    }
}

// How many milliseconds the fleet sleeps: until something that waits is due, and 5 at most.
fn nap_length(waiting: &Waiting, told: u64) -> u64
    requires early { AreEarly told waiting.now.holds }
    ensures some { 1 ≤ result }
    ensures most { result ≤ 5 }
    ensures in_time { IsInTime told result waiting.now.holds }
{
    match waiting.first() {
        Some(first) => (first.due.moment - told).min(5),
        None => 5,
    }
}

// Sleeps until something that waits is due, and 5 milliseconds at most.
fn nap<F: Paced>(waiting: &Waiting, fleet: &mut F, told: u64) -> Result<(), Outcome>
    requires early { AreEarly told waiting.now.holds }
    ensures count { F.Fleet.faults fleet.old ≤ F.Fleet.faults fleet.new }
    ensures same_count { F.Fleet.started fleet.new ≡ F.Fleet.started fleet.old }
    ensures same_links { F.Fleet.open_links fleet.new ≡ F.Fleet.open_links fleet.old }
    ensures slept { GrowsBy F.Fleet.log F.Fleet.faults fleet.old fleet.new
        (λ entries risen. NapsAs result entries risen) }
{
    match fleet.sleep(nap_length(waiting, told)) {
        Slept::Woke => Ok(()),
        Slept::Failed => Err(Outcome::Fleet),
    }
}

// Takes a message, if one has come; else the fleet sleeps.
fn attend<F: Paced>(
    core: &mut Core,
    crew: &mut Crew,
    waiting: &mut Waiting,
    fleet: &mut F,
    kinds: &Registry,
    told: u64,
) -> Result<(), Outcome>
    requires going { core.old.ended ≡ None }
    requires unhalted { crew.old.halt ≡ None }
    requires known { AreOf (rows_in kinds.now) (within_of crew.old) }
    requires waits { Waits core.old }
    requires early { AreEarly told waiting.old.holds }
    requires open { AreOpen crew.old.channels (F.Fleet.open_links fleet.old) }
    requires underway { (S : Setting) × (log : List LogEntry)
        × GoesOn S core.old log crew.old waiting.old }
    ensures count { F.Fleet.faults fleet.old ≤ F.Fleet.faults fleet.new }
    ensures same_count { F.Fleet.started fleet.new ≡ F.Fleet.started fleet.old }
    ensures same_links { F.Fleet.open_links fleet.new ≡ F.Fleet.open_links fleet.old }
    ensures attended { GrowsBy F.Fleet.log F.Fleet.faults fleet.old fleet.new
        (λ entries risen. AttendsAs result told entries risen core.old crew.old waiting.old core.new
        crew.new waiting.new) }
    ensures batch { GainsBatch core.old core.new }
    ensures rising { RisesOn (F.Fleet.log fleet.old) (F.Fleet.log fleet.new) }
    ensures still { IsStill crew.old crew.new }
    ensures unhalted { OnOk result (crew.new.halt ≡ None) }
    ensures on_tempo { IsOnTempo waiting.old waiting.new }
{
    match crew.try_hear(fleet) {
        Ok(Some((sim, message))) => take(core, crew, kinds, waiting, sim, message),
        Ok(None) => nap(waiting, fleet, told),
        Err(halt) => Err(Outcome::from(halt)),
    }
}

// Sends what is due at this reading, and takes a message or sleeps.
fn pass<F: Paced>(
    core: &mut Core,
    crew: &mut Crew,
    waiting: &mut Waiting,
    fleet: &mut F,
    kinds: &Registry,
    told: u64,
) -> Result<(), PaceEnd>
    requires going { core.old.ended ≡ None }
    requires unhalted { crew.old.halt ≡ None }
    requires known { AreOf (rows_in kinds.now) (within_of crew.old) }
    requires waits { Waits core.old }
    requires underway { (S : Setting) × (log : List LogEntry)
        × GoesOn S core.old log crew.old waiting.old × HasJustTold told log
        × AreLinksOpen S (F.Fleet.open_links fleet.old) }
    ensures count { F.Fleet.faults fleet.old ≤ F.Fleet.faults fleet.new }
    ensures same_count { F.Fleet.started fleet.new ≡ F.Fleet.started fleet.old }
    ensures same_links { F.Fleet.open_links fleet.new ≡ F.Fleet.open_links fleet.old }
    ensures passed { GrowsBy F.Fleet.log F.Fleet.faults fleet.old fleet.new
        (λ entries risen. PassesAs result told entries risen core.old crew.old waiting.old core.new
        crew.new waiting.new) }
    ensures batch { GainsBatch core.old core.new }
    ensures rising { RisesOn (F.Fleet.log fleet.old) (F.Fleet.log fleet.new) }
    ensures still { IsStill crew.old crew.new }
    ensures unhalted { OnOk result (crew.new.halt ≡ None) }
    ensures on_tempo { IsOnTempo waiting.old waiting.new }
{
    send_due(core, crew, kinds, waiting, told)?;
    match attend(core, crew, waiting, fleet, kinds, told) {
        Ok(()) => Ok(()),
        Err(end) => Err(PaceEnd::Outcome(end)),
    }
}

// Looks at the clock, sends what is due, and takes a message or sleeps.
fn tick<F: Paced>(
    core: &mut Core,
    crew: &mut Crew,
    waiting: &mut Waiting,
    fleet: &mut F,
    kinds: &Registry,
) -> Result<(), PaceEnd>
    requires going { core.old.ended ≡ None }
    requires unhalted { crew.old.halt ≡ None }
    requires known { AreOf (rows_in kinds.now) (within_of crew.old) }
    requires waits { Waits core.old }
    requires underway { (S : Setting) × (log : List LogEntry)
        × GoesOn S core.old log crew.old waiting.old
        × AreLinksOpen S (F.Fleet.open_links fleet.old) }
    ensures count { F.Fleet.faults fleet.old ≤ F.Fleet.faults fleet.new }
    ensures same_count { F.Fleet.started fleet.new ≡ F.Fleet.started fleet.old }
    ensures same_links { F.Fleet.open_links fleet.new ≡ F.Fleet.open_links fleet.old }
    ensures turned { GrowsBy F.Fleet.log F.Fleet.faults fleet.old fleet.new
        (λ entries risen. TurnsAs result entries risen core.old crew.old waiting.old core.new
        crew.new waiting.new) }
    ensures batch { GainsBatch core.old core.new }
    ensures rising { RisesOn (F.Fleet.log fleet.old) (F.Fleet.log fleet.new) }
    ensures still { IsStill crew.old crew.new }
    ensures unhalted { OnOk result (crew.new.halt ≡ None) }
    ensures on_tempo { IsOnTempo waiting.old waiting.new }
{
    match fleet.now() {
        Now::At(told) => pass(core, crew, waiting, fleet, kinds, told),
        Now::Failed => Err(PaceEnd::Outcome(Outcome::Fleet)),
    }
}

// Looks at the clock, sends what is due, takes a message or sleeps, and asks whoever is ready then.
fn go_on<F: Paced>(
    core: &mut Core,
    crew: &mut Crew,
    waiting: &mut Waiting,
    fleet: &mut F,
    kinds: &Registry,
) -> Result<(), PaceEnd>
    requires going { core.old.ended ≡ None }
    requires unhalted { crew.old.halt ≡ None }
    requires known { AreOf (rows_in kinds.now) (within_of crew.old) }
    requires waits { Waits core.old }
    requires underway { (S : Setting) × (log : List LogEntry)
        × GoesOn S core.old log crew.old waiting.old
        × AreLinksOpen S (F.Fleet.open_links fleet.old) }
    ensures count { F.Fleet.faults fleet.old ≤ F.Fleet.faults fleet.new }
    ensures same_count { F.Fleet.started fleet.new ≡ F.Fleet.started fleet.old }
    ensures same_links { F.Fleet.open_links fleet.new ≡ F.Fleet.open_links fleet.old }
    ensures turned { GrowsBy F.Fleet.log F.Fleet.faults fleet.old fleet.new
        (λ entries risen. TurnsAs result entries risen core.old crew.old waiting.old core.new
        crew.new waiting.new) }
    ensures batch { GainsBatch core.old core.new }
    ensures waits { OnOk result (Waits core.new) }
    ensures rising { RisesOn (F.Fleet.log fleet.old) (F.Fleet.log fleet.new) }
    ensures still { IsStill crew.old crew.new }
    ensures unhalted { OnOk result (crew.new.halt ≡ None) }
    ensures on_tempo { IsOnTempo waiting.old waiting.new }
{
    if let Err(end) = tick(core, crew, waiting, fleet, kinds) {
        return Err(end);
    }
    match ask_all(core, waiting) {
        Ok(()) => Ok(()),
        Err(end) => Err(PaceEnd::Outcome(end)),
    }
}

// Goes on by one look at the clock, and shows what the journal has got then.
fn turn<F: Paced, O: Onlooker>(
    core: &mut Core,
    crew: &mut Crew,
    waiting: &mut Waiting,
    fleet: &mut F,
    kinds: &Registry,
    onlooker: &mut O,
) -> Result<(), PaceEnd>
    requires going { core.old.ended ≡ None }
    requires unhalted { crew.old.halt ≡ None }
    requires known { AreOf (rows_in kinds.now) (within_of crew.old) }
    requires waits { Waits core.old }
    requires underway { (S : Setting) × (log : List LogEntry)
        × GoesOn S core.old log crew.old waiting.old
        × AreLinksOpen S (F.Fleet.open_links fleet.old) }
    ensures count { F.Fleet.faults fleet.old ≤ F.Fleet.faults fleet.new }
    ensures same_count { F.Fleet.started fleet.new ≡ F.Fleet.started fleet.old }
    ensures same_links { F.Fleet.open_links fleet.new ≡ F.Fleet.open_links fleet.old }
    ensures turned { GrowsBy F.Fleet.log F.Fleet.faults fleet.old fleet.new
        (λ entries risen. TurnsAs result entries risen core.old crew.old waiting.old core.new
        crew.new waiting.new) }
    ensures batch { GainsBatch core.old core.new }
    ensures shown { O.looks onlooker.old core.new.plan
        (drop (length core.old.entries) core.new.entries) true onlooker.new }
    ensures waits { OnOk result (Waits core.new) }
    ensures rising { RisesOn (F.Fleet.log fleet.old) (F.Fleet.log fleet.new) }
    ensures still { IsStill crew.old crew.new }
    ensures unhalted { OnOk result (crew.new.halt ≡ None) }
    ensures on_tempo { IsOnTempo waiting.old waiting.new }
{
    let shown = core.journal().entries.len();
    let result = go_on(core, crew, waiting, fleet, kinds);
    show(onlooker, core.plan(), core.journal(), shown, true);
    result
}

// Asks whoever is ready at first, and shows the whole journal.
fn begin<O: Onlooker>(
    core: &mut Core,
    waiting: &mut Waiting,
    onlooker: &mut O,
) -> Result<(), Outcome>
    requires going { core.old.ended ≡ None }
    requires underway { (S : Setting) × (log : List LogEntry) × (C : CrewSeen)
        × GoesOn S core.old log C waiting.old }
    ensures asked { AsksAs result core.old waiting.old core.new waiting.new }
    ensures items { GainsItems core.old core.new }
    ensures shown { O.looks onlooker.old core.new.plan (drop 0 core.new.entries) true onlooker.new }
    ensures on_tempo { IsOnTempo waiting.old waiting.new }
{
    let result = ask_all(core, waiting);
    show(onlooker, core.plan(), core.journal(), 0, true);
    result
}

/// Goes on until the first end: what is due is sent, and no Step before its moment; where nothing
/// comes, the fleet sleeps, 5 milliseconds at most. The clock doesn't go back. Whatever is in the
/// journal has been shown whenever the fleet sleeps, and at the end.
pub fn drive<F: Paced, R: Wait, O: Onlooker>(
    rt: &R,
    core: &mut Core,
    crew: &mut Crew,
    waiting: &mut Waiting,
    fleet: &mut F,
    kinds: &Registry,
    onlooker: &mut O,
) -> PaceEnd
    requires going { core.old.ended ≡ None }
    requires unhalted { crew.old.halt ≡ None }
    requires known { AreOf (rows_in kinds.now) (within_of crew.old) }
    requires underway { (S : Setting) × (log : List LogEntry)
        × GoesOn S core.old log crew.old waiting.old
        × AreLinksOpen S (F.Fleet.open_links fleet.old) }
    ensures count { F.Fleet.faults fleet.old ≤ F.Fleet.faults fleet.new }
    ensures same_count { F.Fleet.started fleet.new ≡ F.Fleet.started fleet.old }
    ensures same_links { F.Fleet.open_links fleet.new ≡ F.Fleet.open_links fleet.old }
    ensures ended { GrowsBy F.Fleet.log F.Fleet.faults fleet.old fleet.new
        (λ entries risen. TurnsAs (Err result) entries risen core.old crew.old waiting.old core.new
        crew.new waiting.new) }
    ensures shown { IsShown O.looks core.new.plan true core.old.entries core.new.entries
        onlooker.old onlooker.new }
    ensures same_plan { core.new.plan ≡ core.old.plan }
    ensures rising { RisesOn (F.Fleet.log fleet.old) (F.Fleet.log fleet.new) }
    ensures still { IsStill crew.old crew.new }
    ensures on_tempo { IsOnTempo waiting.old waiting.new }
{
    if let Err(end) = begin(core, waiting, onlooker) {
        return PaceEnd::Outcome(end);
    }
    for _ in rt.forever() {
        match turn(core, crew, waiting, fleet, kinds, onlooker) {
            Ok(()) => {}
            Err(end) => return end,
        }
    }
    unreachable!()
}
