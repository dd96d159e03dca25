//! A handshake as a text: each request, that its reply is waited for, and the plan or the fault at the end.
ghost use Rattle.std.specs.Prelude.{◌≡◌, true, IfOk, IfSome};
ghost use Rattle.mk_message.specs.Written.{is_call_in_range};
ghost use Rattle.mk_scenario.specs.Wellformed.{IsWellformed};
ghost use Rattle.mk_setup.specs.Ranked.{AreRanksOf};

use mk_base::{List, Mem, SimNo};
use mk_connect::edges;
use mk_cycles::ranks;
use mk_message::{read, write_call};
use mk_plan::{Call, Journal, Message, Plan};
use mk_record_write::write_record;
use mk_scenario::{Scenario, read_scenario};
use mk_setup::{Setup, SetupFault, SetupNext};
use std::alloc::Global;

/// A payload, and the number of the simulator that says it.
pub type Said = (u32, &'static str);

/// The handshake of a scenario with these messages, each of which comes while a request is outstanding; empty where the
/// text is no scenario that can be run.
pub fn transcript(alloc: Global, file: &str, said: &[Said]) -> Result<Vec<u8>, Mem> {
    match begun(alloc, file) {
        Some(setup) => whole(alloc, setup, said),
        None => Ok(Vec::new(alloc)),
    }
}

// The handshake that this setup begins.
fn whole(alloc: Global, setup: Setup, said: &[Said]) -> Result<Vec<u8>, Mem> {
    let mut setup = setup;
    text_of(alloc, &mut setup, said)
}

fn text_of(alloc: Global, setup: &mut Setup, said: &[Said]) -> Result<Vec<u8>, Mem> {
    let mut out = Vec::new(alloc);
    talk(alloc, &mut out, setup, said)?;
    Ok(out)
}

// The setup of a scenario's text.
fn begun(alloc: Global, file: &str) -> Option<Setup> {
    match scenario_of(alloc, file) {
        Some(scenario) => setup_of(alloc, scenario),
        None => None,
    }
}

fn setup_of(alloc: Global, scenario: Scenario) -> Option<Setup>
    requires { IsWellformed scenario }
{
    match ranks_of(alloc, &scenario) {
        Ok(ranks) => Setup::new(alloc, scenario, ranks).ok(),
        Err(_) => None,
    }
}

fn scenario_of(alloc: Global, file: &str) -> Option<Scenario>
    ensures { IfSome result (λ scenario. IsWellformed scenario) }
{
    read_scenario(alloc, file.as_bytes()).ok()
}

// The ranks of a scenario's simulators; want of memory also where there is a cycle.
fn ranks_of(alloc: Global, scenario: &Scenario) -> Result<List<u32>, Mem>
    requires { IsWellformed scenario.now }
    ensures ranked { IfOk result (λ ranks. AreRanksOf scenario.now ranks) }
{
    let edges = edges(alloc, scenario)?;
    match ranks(alloc, scenario.sims.len() as u32, edges.as_slice()) {
        Ok(ranks) => Ok(ranks),
        Err(_) => Err(Mem),
    }
}

fn talk(alloc: Global, out: &mut Vec<u8>, setup: &mut Setup, said: &[Said]) -> Result<(), Mem> {
    for (sim, payload) in said {
        put_next(alloc, out, setup)?;
        put_next(alloc, out, setup)?;
        put_arrival(alloc, out, setup, *sim, payload)?;
    }
    put_next(alloc, out, setup)
}

// The line of what comes next; of a plan its record.
fn put_next(alloc: Global, out: &mut Vec<u8>, setup: &mut Setup) -> Result<(), Mem> {
    match setup.next() {
        Ok(SetupNext::Request { sim, call, id }) => put_request(alloc, out, sim, call, id),
        Ok(SetupNext::Wait) => put(out, "wait\n"),
        Ok(SetupNext::Ready(plan)) => put_plan(alloc, out, plan),
        Err(fault) => put_end(out, fault),
    }
}

fn put_request(alloc: Global, out: &mut Vec<u8>, sim: SimNo, call: Call, id: u64) -> Result<(), Mem>
    requires { is_call_in_range call ≡ true }
{
    put_call(alloc, out, sim, &call, id)
}

fn put_call(alloc: Global, out: &mut Vec<u8>, sim: SimNo, call: &Call, id: u64) -> Result<(), Mem>
    requires { is_call_in_range call.now ≡ true }
{
    let payload = write_call(alloc, call, id)?;
    put_payload(out, sim, payload.as_slice())
}

fn put_payload(out: &mut Vec<u8>, sim: SimNo, payload: &[u8]) -> Result<(), Mem> {
    put_sim(out, sim)?;
    put(out, ": ")?;
    out.extend_from_slice(payload)?;
    put(out, "\n")
}

fn put_plan(alloc: Global, out: &mut Vec<u8>, plan: Plan) -> Result<(), Mem> {
    put_record(alloc, out, &plan)
}

fn put_record(alloc: Global, out: &mut Vec<u8>, plan: &Plan) -> Result<(), Mem> {
    let record = record_of(alloc, plan)?;
    out.extend_from_slice(record.as_slice())?;
    Ok(())
}

// The record of a run of this plan that did nothing yet.
fn record_of(alloc: Global, plan: &Plan) -> Result<Vec<u8>, Mem> {
    let journal = Journal {
        entries: List::new(alloc),
    };
    write_record(alloc, plan, &journal)
}

fn put_end(out: &mut Vec<u8>, fault: SetupFault) -> Result<(), Mem> {
    put_fault(out, &fault)
}

fn put_fault(out: &mut Vec<u8>, fault: &SetupFault) -> Result<(), Mem> {
    match fault {
        SetupFault::Unasked(sim) => {
            put(out, "unasked ")?;
            put_sim(out, *sim)?;
            put(out, "\n")
        }
        _ => put(out, "another fault\n"),
    }
}

// What becomes of a message, if that is a fault.
fn put_arrival(
    alloc: Global,
    out: &mut Vec<u8>,
    setup: &mut Setup,
    sim: u32,
    payload: &str,
) -> Result<(), Mem> {
    match read(alloc, payload.as_bytes()) {
        Ok(message) => take(out, setup, SimNo(sim), message),
        Err(_) => put(out, "no message\n"),
    }
}

fn take(out: &mut Vec<u8>, setup: &mut Setup, sim: SimNo, message: Message) -> Result<(), Mem> {
    take_in(out, setup, sim, &message)
}

fn take_in(out: &mut Vec<u8>, setup: &mut Setup, sim: SimNo, message: &Message) -> Result<(), Mem> {
    match setup.arrive(sim, message) {
        Ok(()) => Ok(()),
        Err(fault) => put_end(out, fault),
    }
}

// A text, as it is.
fn put(out: &mut Vec<u8>, text: &str) -> Result<(), Mem> {
    out.extend_from_slice(text.as_bytes())?;
    Ok(())
}

// The number of a simulator, of which there are fewer than ten.
fn put_sim(out: &mut Vec<u8>, sim: SimNo) -> Result<(), Mem> {
    out.push(b'0' + sim.0.min(9) as u8)?;
    Ok(())
}
