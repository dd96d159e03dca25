//! The next request, after its test.
ghost use Rattle.std.specs.Prelude.{◌≡◌, ◌+◌, ◌<◌, ◌⊎◌, false, length, IfOk, IfErr, OnOk, None, Some};
ghost use Rattle.mk_setup.specs.Answers.{NextOf};
ghost use Rattle.mk_setup.specs.Asking.{test_before};
ghost use Rattle.mk_setup.specs.Kept.{state_of};
ghost use Rattle.mk_setup.specs.inner.Kept.{IsHindered, IsSoundProgress};
ghost use Rattle.mk_setup.specs.Requests.{request_of};

use crate::answers::SetupNext;
use crate::calls::{create_call, init_call};
use crate::fault::SetupFault;
use crate::planning::{make_plan, take_plan};
use crate::progress::{Progress, stage};
use crate::repeated::connect_fault;
use crate::stage::Stage;
use mk_base::SimNo;
use mk_connect::{ConnectFault, group_check};
use mk_plan::Call;

// The next request or the plan, unless a request is outstanding.
pub fn go_on(progress: &mut Progress) -> Result<SetupNext, SetupFault>
    requires { IsSoundProgress progress.old }
    ensures kept { IsSoundProgress progress.new }
    ensures ok { IfOk result
        (λ next. NextOf (state_of progress.old None) next (state_of progress.new None)) }
    ensures hindered { IfErr result
        (λ e. IsHindered (state_of progress.old None) e (state_of progress.new None)) }
{
    if progress.asked {
        return Ok(SetupNext::Wait);
    }
    match stage(progress) {
        Stage::Init(sim) => ask_init(progress, sim),
        Stage::Create(group) => ask_create(progress, group),
        Stage::Done(sim) => ask_done(progress, sim),
        Stage::Over => finish(progress),
    }
}

// The request is made.
fn ask(progress: &mut Progress, sim: SimNo, call: Call) -> SetupNext
    requires kept { IsSoundProgress progress.old }
    requires resting { progress.old.asked ≡ false }
    requires there { sim.0 < length progress.old.scenario.sims }
    requires request { request_of (state_of progress.old None)
        ≡ Some (record { sim = sim.0; call = call }) }
    requires tested { test_before (state_of progress.old None)
        (request_of (state_of progress.old None)) ≡ None }
    ensures kept { IsSoundProgress progress.new }
    ensures asked { NextOf (state_of progress.old None) result (state_of progress.new None) }
{
    let id = *progress.ids.at(sim.0 as usize);
    progress.asked = true;
    SetupNext::Request { sim, call, id }
}

fn ask_init(progress: &mut Progress, sim: u32) -> Result<SetupNext, SetupFault>
    requires kept { IsSoundProgress progress.old }
    requires resting { progress.old.asked ≡ false }
    requires stage { progress.old.answered ≡ sim }
    requires there { sim < length progress.old.scenario.sims }
    ensures kept { IsSoundProgress progress.new }
    ensures ok { IfOk result
        (λ next. NextOf (state_of progress.old None) next (state_of progress.new None)) }
    ensures hindered { IfErr result
        (λ e. IsHindered (state_of progress.old None) e (state_of progress.new None)) }
{
    let part = progress.scenario.sims.at(sim as usize);
    let call = init_call(progress.alloc, part)?;
    Ok(ask(progress, SimNo(sim), call))
}

fn ask_create(progress: &mut Progress, group: u32) -> Result<SetupNext, SetupFault>
    requires kept { IsSoundProgress progress.old }
    requires resting { progress.old.asked ≡ false }
    requires stage { progress.old.answered ≡ length progress.old.scenario.sims + group }
    requires there { group < length progress.old.scenario.groups }
    ensures kept { IsSoundProgress progress.new }
    ensures ok { IfOk result
        (λ next. NextOf (state_of progress.old None) next (state_of progress.new None)) }
    ensures hindered { IfErr result
        (λ e. IsHindered (state_of progress.old None) e (state_of progress.new None)) }
{
    if let Err(fault) = test_group(progress, group) {
        return Err(connect_fault(fault));
    }
    let part = progress.scenario.groups.at(group as usize);
    let sim = part.sim;
    let call = create_call(progress.alloc, part)?;
    Ok(ask(progress, sim, call))
}

// The test of a group before its `create`.
fn test_group(progress: &Progress, group: u32) -> Result<(), ConnectFault>
    requires kept { IsSoundProgress progress.now }
    requires stage { progress.now.answered ≡ length progress.now.scenario.sims + group }
    requires there { group < length progress.now.scenario.groups }
    ensures ok { OnOk result
        (test_before (state_of progress.now None) (request_of (state_of progress.now None))
        ≡ None) }
    ensures refused { IfErr result (λ e. (e ≡ ConnectFault.Mem)
        ⊎ (test_before (state_of progress.now None) (request_of (state_of progress.now None))
        ≡ Some e)) }
{
    let part = progress.scenario.groups.at(group as usize);
    let meta = progress.metas.at(part.sim.0 as usize);
    group_check(progress.alloc, &progress.scenario, group, meta)
}

fn ask_done(progress: &mut Progress, sim: u32) -> Result<SetupNext, SetupFault>
    requires kept { IsSoundProgress progress.old }
    requires resting { progress.old.asked ≡ false }
    requires stage { progress.old.answered
        ≡ length progress.old.scenario.sims + length progress.old.scenario.groups + sim }
    requires there { sim < length progress.old.scenario.sims }
    ensures kept { IsSoundProgress progress.new }
    ensures ok { IfOk result
        (λ next. NextOf (state_of progress.old None) next (state_of progress.new None)) }
    ensures hindered { IfErr result
        (λ e. IsHindered (state_of progress.old None) e (state_of progress.new None)) }
{
    match make_plan(progress) {
        Ok(()) => Ok(ask(progress, SimNo(sim), Call::SetupDone)),
        Err(fault) => Err(connect_fault(fault)),
    }
}

fn finish(progress: &mut Progress) -> Result<SetupNext, SetupFault>
    requires kept { IsSoundProgress progress.old }
    requires resting { progress.old.asked ≡ false }
    requires stage { progress.old.answered
        ≡ length progress.old.scenario.sims + length progress.old.scenario.groups + length
        progress.old.scenario.sims }
    ensures kept { IsSoundProgress progress.new }
    ensures ok { IfOk result
        (λ next. NextOf (state_of progress.old None) next (state_of progress.new None)) }
    ensures hindered { IfErr result
        (λ e. IsHindered (state_of progress.old None) e (state_of progress.new None)) }
{
    match take_plan(progress) {
        Ok(plan) => Ok(SetupNext::Ready(plan)),
        Err(fault) => Err(connect_fault(fault)),
    }
}
