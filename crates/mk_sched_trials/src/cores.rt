//! A run of two simulators, message by message.
ghost use Rattle.std.specs.Prelude.{◌≡◌, true, IfOk};
ghost use Rattle.mk_plan.specs.Messages.{is_message_in_range};

use mk_base::{Mem, SimKind, SimNo};
use mk_json::{JsonFault, read_json};
use mk_plan::{Message, Plan};
use mk_plan_check::{PlanFault, check_plan};
use mk_plan_samples::{OUT_TO_IN, connections, plan_of, two_simulators};
use mk_sched::{Core, Next, Taken};
use std::alloc::Global;

// The counter A-0 feeds the sum B-0, which steps at each third time.
fn sum_plan(alloc: Global) -> Result<Plan, Mem> {
    let kind = (SimKind::TimeBased, 2);
    let sims = two_simulators(alloc, kind, kind)?;
    let conns = connections(alloc, &[OUT_TO_IN])?;
    plan_of(alloc, 7, 2, sims, conns)
}

// A core of that plan, if it is valid.
fn core_of(alloc: Global) -> Result<Core, PlanFault> {
    let plan = sum_plan(alloc)?;
    check_plan(alloc, &plan)?;
    Ok(Core::new(alloc, plan)?)
}

// What is next.
fn next(core: &mut Core) -> &'static str {
    match core.next() {
        Ok(Next::Ask(_)) => "ask",
        Ok(Next::Wait) => "wait",
        Ok(Next::Done) => "done",
        Ok(Next::Fault(_)) => "fault",
        Err(_) => "no memory",
    }
}

fn word_of(taken: Result<Taken, Mem>) -> &'static str {
    match taken {
        Ok(Taken::Quiet) => "quiet",
        Ok(Taken::Send) => "send",
        Ok(Taken::Fault(_)) => "fault",
        Err(_) => "no memory",
    }
}

// What follows a message, of which the counter gives a copy.
fn take(core: &mut Core, sim: u32, message: Message) -> &'static str
    requires { is_message_in_range message ≡ true }
{
    if sim as usize >= core.plan().sims.len() {
        return "nobody";
    }
    if sim == 0 {
        word_of(core.arrive(SimNo(sim), &message))
    } else {
        word_of(core.take(SimNo(sim), message))
    }
}

// The id of what is open at a simulator, or 0.
fn open_id(core: &Core, sim: u32) -> u64 {
    if sim as usize >= core.plan().sims.len() {
        return 0;
    }
    core.id_of(SimNo(sim)).unwrap_or(0)
}

fn success(alloc: Global, id: u64, text: &str) -> Result<Message, JsonFault>
    ensures { IfOk result (λ message. is_message_in_range message ≡ true) }
{
    Ok(Message::Success {
        id,
        content: read_json(alloc, text.as_bytes())?,
    })
}

// What follows a reply to what is open.
fn reply(alloc: Global, core: &mut Core, sim: u32, text: &str) -> &'static str {
    match success(alloc, open_id(core, sim), text) {
        Ok(message) => take(core, sim, message),
        Err(_) => "no reply",
    }
}

// Who says what, or `next`; what the core answers, and how many of the counter's outputs it keeps then at most. The
// counter makes all seven before the sum replies for the first time; those before the sum's step are given up.
type Line = (u32, &'static str, &'static str, usize);

const LINES: [Line; 32] = [
    (0, "next", "ask", 0),
    (0, "next", "wait", 0),
    (0, "1", "send", 0),
    (0, "{\"0\": {\"out\": 0}}", "quiet", 1),
    (0, "next", "ask", 1),
    (0, "next", "ask", 1),
    (0, "2", "send", 1),
    (0, "{\"0\": {\"out\": 1}}", "quiet", 2),
    (0, "next", "ask", 2),
    (0, "3", "send", 2),
    (0, "{\"0\": {\"out\": 2}}", "quiet", 3),
    (0, "next", "ask", 3),
    (0, "4", "send", 3),
    (0, "{\"0\": {\"out\": 3}}", "quiet", 4),
    (0, "next", "ask", 4),
    (0, "5", "send", 4),
    (0, "{\"0\": {\"out\": 4}}", "quiet", 5),
    (0, "next", "ask", 5),
    (0, "6", "send", 5),
    (0, "{\"0\": {\"out\": 5}}", "quiet", 6),
    (0, "next", "ask", 6),
    (0, "7", "send", 6),
    (0, "{\"0\": {\"out\": 6}}", "quiet", 7),
    (0, "next", "wait", 7),
    (1, "3", "quiet", 7),
    (0, "next", "ask", 7),
    (0, "next", "wait", 4),
    (1, "6", "quiet", 4),
    (0, "next", "ask", 4),
    (0, "next", "wait", 2),
    (1, "9", "quiet", 2),
    (0, "next", "done", 2),
];

// Whether a core answers so to a line, and keeps no more outputs then.
fn is_so(alloc: Global, core: &mut Core, line: &Line) -> bool {
    let answer = if line.1 == "next" {
        next(core)
    } else {
        reply(alloc, core, line.0, line.1)
    };
    answer == line.2 && core.kept() <= line.3
}

// How many lines go so, up to the first that doesn't.
fn count_so(alloc: Global, core: &mut Core) -> usize {
    for (place, line) in LINES.iter().enumerate() {
        if !is_so(alloc, core, line) {
            return place;
        }
    }
    LINES.len()
}

// How many entries its journal has, and how many where it is taken apart.
fn entry_counts(core: Core) -> (usize, usize) {
    let count = core.journal().entries.len();
    let (_, journal) = core.into_parts();
    (count, journal.entries.len())
}

// How many lines go so, and how many entries the journal has then.
fn played(alloc: Global) -> (usize, (usize, usize)) {
    match core_of(alloc) {
        Ok(mut core) => {
            let count = count_so(alloc, &mut core);
            (count, entry_counts(core))
        }
        Err(_) => (1000, (0, 0)),
    }
}

#[test]
fn a_sum_gets_what_a_counter_gives(rt: HostRuntime) {
    assert!(rt; played(rt.alloc()) == (32, (34, 34)));
}
