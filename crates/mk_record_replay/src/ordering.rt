//! The replay of a record's messages in another order: which simulator's message is given next is drawn by numbers.
ghost use Rattle.std.specs.Prelude.{◌≡◌, ◌<◌, ◌^◌, ◌%◌, ◌==◌, ◌&&◌, ◌||◌, not, ◌++◌, ◌∷◌, [], ℕ, None, Some, true, false, List, All, is_some, length, map, slice_get, slice_set, IfOk, OnOk, if◌then◌else◌};
ghost use Rattle.mk_plan.specs.Journals as journals;
ghost use Rattle.mk_plan.specs.declared.Message.{Message};
ghost use Rattle.mk_plan.specs.Plans.{sim_count};
ghost use Rattle.mk_record_read.specs.Seen.{came};
ghost use Rattle.mk_sched.specs.Answers.{open_id};
ghost use Rattle.mk_record_replay.specs.inner.Loops.{IsUnready};
ghost use Rattle.mk_record_replay.specs.Orders.{after_draw, chosen, drawn, next_number};
ghost use Rattle.mk_record_replay.specs.inner.Rounds.{AreFit, AreWaiting, CanGoOn, GivenMessage, GivenNext, HasEnded, HasMoved, IsBetween, IsPopped, RoundOf, next_among};
ghost use Rattle.mk_plan.specs.Messages.{is_message_in_range};

use crate::asking::{Standstill, ask_all};
use crate::replaying::{ReplayEnd, open_count, take};
use mk_base::{List, Mem, SimNo};
use mk_plan::Message;
use mk_record_read::Arrival;
use mk_sched::{Core, CoreFault};
use std::alloc::Global;

// What comes of giving a message: one was given; none is left; or a fault ended the replay.
#[derive(Clone, Copy, Debug, PartialEq, Eq)]
pub enum Given {
    Going,
    Nothing,
    Stopped(CoreFault),
}

/// The messages of each of so many simulators, its last message first.
pub fn split(
    alloc: Global,
    count: usize,
    arrivals: List<Arrival>,
) -> Result<Vec<List<Message>>, Mem>
    requires { All (λ a. (a.sim.0 < count) × (is_message_in_range a.message ≡ true)) arrivals }
    ensures waiting { IfOk result
        (λ waiting. AreWaiting count (map came arrivals) [] waiting.items) }
    ensures fit { IfOk result (λ waiting. AreFit count waiting.items) }
{
    let mut waiting = empty_lists(alloc, count)?;
    let mut left = arrivals;
    while let Some(arrival) = left.pop() {
        push_message(&mut waiting, arrival)?;
    }
    Ok(waiting)
}

// So many lists of nothing.
fn empty_lists(alloc: Global, count: usize) -> Result<Vec<List<Message>>, Mem>
    ensures waiting { IfOk result (λ waiting. AreWaiting count [] [] waiting.items) }
    ensures fit { IfOk result (λ waiting. AreFit count waiting.items) }
{
    let mut lists = Vec::new(alloc);
    for _ in 0..count {
        lists.push(List::new(alloc))?;
    }
    Ok(lists)
}

// Puts a message behind those of its simulator.
fn push_message(waiting: &mut Vec<List<Message>>, arrival: Arrival) -> Result<(), Mem>
    requires { arrival.sim.0 < length waiting.old.items }
    ensures { (left : List Message) → slice_get waiting.old.items arrival.sim.0 ≡ Some left
        → OnOk result (waiting.new.items
        ≡ slice_set waiting.old.items arrival.sim.0 (left ++ arrival.message ∷ [])) }
{
    waiting[arrival.sim.0 as usize].push(arrival.message)
}

// Takes the last message off those of a simulator.
fn pop_message(waiting: &mut Vec<List<Message>>, sim: u32) -> Option<Message>
    requires { sim < length waiting.old.items }
    ensures { (left : List Message) → slice_get waiting.old.items sim ≡ Some left
        → IsPopped waiting.old.items sim left result waiting.new.items }
{
    waiting[sim as usize].pop()
}

/// Gives each simulator's messages to a core, in the order of this number; how the replay ends.
pub fn run_in_order(
    alloc: Global,
    core: &mut Core,
    waiting: &mut Vec<List<Message>>,
    order: u32,
) -> Result<ReplayEnd, Mem>
    requires going { CanGoOn core.old waiting.old.items }
    ensures { (A : List journals.Arrival) → IsBetween A order core.old waiting.old.items order
        → IfOk result (λ end. HasEnded A order core.old end core.new) }
{
    let mut number = order as u64;
    'giving: loop {
        match round(alloc, core, waiting, &mut number)? {
            Some(end) => return Ok(end),
            None => {}
        }
    }
}

// Asks whoever is ready, and gives one message; how the replay ends, if it does.
fn round(
    alloc: Global,
    core: &mut Core,
    waiting: &mut Vec<List<Message>>,
    number: &mut u64,
) -> Result<Option<ReplayEnd>, Mem>
    requires going { CanGoOn core.old waiting.old.items }
    ensures round { (A : List journals.Arrival) → (N : ℕ)
        → IsBetween A N core.old waiting.old.items number.old
        → IfOk result (λ end. RoundOf A N core.old end core.new waiting.new.items number.new) }
    ensures moved { IfOk result (λ end. end ≡ None → HasMoved core.old core.new waiting.new.items) }
{
    match ask_all(core)? {
        Standstill::Full(fault) => Ok(Some(ReplayEnd::Core(fault))),
        Standstill::Over => match give_next(alloc, core, waiting, number)? {
            Given::Going => Ok(None),
            Given::Nothing => Ok(Some(ReplayEnd::Done)),
            Given::Stopped(fault) => Ok(Some(ReplayEnd::Core(fault))),
        },
        Standstill::Waiting => match give_next(alloc, core, waiting, number)? {
            Given::Going => Ok(None),
            Given::Nothing => Ok(Some(ReplayEnd::Short(open_count(core)))),
            Given::Stopped(fault) => Ok(Some(ReplayEnd::Core(fault))),
        },
    }
}

// Gives the message that is next, if one is left. A simulator is next only where it has one.
fn give_next(
    alloc: Global,
    core: &mut Core,
    waiting: &mut Vec<List<Message>>,
    number: &mut u64,
) -> Result<Given, Mem>
    requires going { CanGoOn core.old waiting.old.items }
    requires few { sim_count core.old.plan < 2 ^ 32 }
    requires nobody { IsUnready core.old }
    ensures given { (A : List journals.Arrival) → (N : ℕ)
        → IsBetween A N core.old waiting.old.items number.old
        → IfOk result (λ given.
        GivenNext A N core.old given core.new waiting.new.items number.new) }
    ensures moved { IfOk result (λ given. given ≡ Given.Going
        → HasMoved core.old core.new waiting.new.items) }
    ensures nothing { IfOk result (λ given. given ≡ Given.Nothing → core.new ≡ core.old) }
{
    match next_sim(alloc, core, waiting.as_slice(), number)? {
        None => Ok(Given::Nothing),
        Some(sim) => match pop_message(waiting, sim) {
            None => unreachable!(),
            Some(message) => {
                let given = give_message(core, SimNo(sim), message)?;
                Ok(given)
            }
        },
    }
}

// Gives one message.
fn give_message(core: &mut Core, sim: SimNo, message: Message) -> Result<Given, Mem>
    requires going { core.old.ended ≡ None }
    requires there { sim.0 < sim_count core.old.plan }
    requires form { is_message_in_range message ≡ true }
    requires nobody { IsUnready core.old }
    ensures { IfOk result
        (λ given. GivenMessage core.old
        (record { sim = sim.0; message = message }) given core.new) }
{
    match take(core, Arrival { sim, message })? {
        None => Ok(Given::Going),
        Some(fault) => Ok(Given::Stopped(fault)),
    }
}

// The simulator whose message is next: of those with an open request the one that is drawn, or else the first with a
// message left.
fn next_sim(
    alloc: Global,
    core: &Core,
    waiting: &[List<Message>],
    number: &mut u64,
) -> Result<Option<u32>, Mem>
    requires going { core.now.ended ≡ None }
    requires count { length waiting.now ≡ sim_count core.now.plan }
    requires few { sim_count core.now.plan < 2 ^ 32 }
    ensures chosen { IfOk result (λ sim. sim ≡ chosen (next_number number.old)
        (next_among false core.now waiting.now (length waiting.now))
        (next_among true core.now waiting.now (length waiting.now))) }
    ensures drawn { OnOk result (number.new
        ≡ after_draw (next_among false core.now waiting.now (length waiting.now)) number.old) }
{
    let candidates = sims_left(alloc, core, waiting, false)?;
    if candidates.is_empty() {
        let left = sims_left(alloc, core, waiting, true)?;
        Ok(first_of(left.as_slice()))
    } else {
        Ok(Some(draw(candidates.as_slice(), number)))
    }
}

fn first_of(sims: &[u32]) -> Option<u32>
    ensures { result ≡ slice_get sims.now 0 }
{
    if sims.is_empty() { None } else { Some(sims[0]) }
}

// Draws one of these.
fn draw(candidates: &[u32], number: &mut u64) -> u32
    requires { 0 < length candidates.now }
    ensures chosen { slice_get candidates.now
        (drawn (next_number number.old) % length candidates.now) ≡ Some result }
    ensures number { number.new ≡ next_number number.old }
{
    *number = next_number(*number);
    let place = drawn(*number) % candidates.len() as u64;
    candidates[place as usize]
}

// The number that follows.
pub fn next_number(number: u64) -> u64
    ensures { result ≡ next_number number }
{
    let product = number as u128 * 6364136223846793005 + 1442695040888963407;
    (product % 18446744073709551616) as u64
}

// What is drawn with a number.
pub fn drawn(number: u64) -> u64
    ensures { result ≡ drawn number }
{
    number / 8589934592
}

// The simulators with a message left and, unless any will do, an open request, in rising number.
fn sims_left(
    alloc: Global,
    core: &Core,
    waiting: &[List<Message>],
    any: bool,
) -> Result<Vec<u32>, Mem>
    requires going { core.now.ended ≡ None }
    requires count { length waiting.now ≡ sim_count core.now.plan }
    requires few { sim_count core.now.plan < 2 ^ 32 }
    ensures { IfOk result (λ sims. sims.items
        ≡ next_among any core.now waiting.now (length waiting.now)) }
{
    let mut sims = Vec::new(alloc);
    for (place, messages) in waiting.iter().enumerate() {
        note_sim(core, &mut sims, SimNo(place as u32), messages, any)?;
    }
    Ok(sims)
}

// Appends the simulator, if it may be next.
fn note_sim(
    core: &Core,
    sims: &mut Vec<u32>,
    sim: SimNo,
    messages: &List<Message>,
    any: bool,
) -> Result<(), Mem>
    requires going { core.now.ended ≡ None }
    requires there { sim.0 < sim_count core.now.plan }
    ensures { OnOk result (sims.new.items ≡ sims.old.items
        ++ (if (any || is_some (open_id core.now sim.0)) && not (length messages.now == 0)
        then (sim.0 ∷ []) else [])) }
{
    if may_be_next(core, sim, messages, any) {
        sims.push(sim.0)?;
    }
    Ok(())
}

fn may_be_next(core: &Core, sim: SimNo, messages: &List<Message>, any: bool) -> bool
    requires going { core.now.ended ≡ None }
    requires there { sim.0 < sim_count core.now.plan }
    ensures { result ≡ ((any || is_some (open_id core.now sim.0))
        && not (length messages.now == 0)) }
{
    (any || core.id_of(sim).is_some()) && !messages.is_empty()
}
