//! What a message adds.
ghost use Rattle.std.specs.Prelude.{◌≡◌, ◌+◌, ◌<◌, ◌≤◌, true, length, IfErr, OnOk, None, Some, Ok, option_map, slice_get};
ghost use Rattle.mk_meta.specs.Metadata.{meta_in};
ghost use Rattle.mk_scenario.specs.declared.parts.Group.{Group};
ghost use Rattle.mk_run_laws.specs.Handshake.{Request};
ghost use Rattle.mk_setup.specs.inner.Counts.{IsToSim, sim_after};
ghost use Rattle.mk_setup.specs.Kept.{state_of};
ghost use Rattle.mk_setup.specs.inner.Kept.{IsAwaitedBy, IsGroupOf, IsSoundProgress, IsUntaken, added_by, awaited_sim, is_awaited};
ghost use Rattle.mk_setup.specs.Replies.{after_reply, arrival, moved, with_entities, with_meta, with_reply};

use crate::fault::SetupFault;
use crate::progress::{Progress, note_reply, stage};
use crate::repeated::{create_fault, meta_fault};
use crate::stage::Stage;
use mk_base::{Json, SimNo};
use mk_meta::read_meta;
use mk_plan::Message;

// Takes a message: it has to be the success reply to the request that is outstanding.
pub fn take(progress: &mut Progress, sim: SimNo, message: &Message) -> Result<(), SetupFault>
    requires { IsSoundProgress progress.old }
    ensures kept { IsSoundProgress progress.new }
    ensures ok { OnOk result (after_reply (state_of progress.old None) (arrival sim message.now)
        ≡ Ok (state_of progress.new None)) }
    ensures untaken { IfErr result
        (λ e. IsUntaken (after_reply (state_of progress.old None) (arrival sim message.now))
        (state_of progress.old None) e (state_of progress.new None)) }
{
    match message {
        Message::Ask { .. } => Err(SetupFault::Unasked(sim)),
        Message::Success { id, content } => {
            if is_awaited(progress, sim, *id) {
                take_content(progress, sim, content)
            } else {
                Err(SetupFault::Unasked(sim))
            }
        }
        Message::Failure { id, text } => {
            if is_awaited(progress, sim, *id) {
                Err(SetupFault::Failed(sim, text.copy()?))
            } else {
                Err(SetupFault::Unasked(sim))
            }
        }
    }
}

// Whether the request that is outstanding went to this simulator, with this id.
fn is_awaited(progress: &Progress, sim: SimNo, id: u64) -> bool
    requires { IsSoundProgress progress.now }
    ensures { result ≡ is_awaited (state_of progress.now None) sim.0 id }
{
    match awaited_sim(progress) {
        Some(awaited) => sim.0 == awaited.0 && id == *progress.ids.at(awaited.0 as usize),
        None => false,
    }
}

// The simulator of the request that is outstanding.
fn awaited_sim(progress: &Progress) -> Option<SimNo>
    requires { IsSoundProgress progress.now }
    ensures { option_map (λ s. s.0) result ≡ awaited_sim (state_of progress.now None) }
{
    if progress.asked {
        next_sim(progress)
    } else {
        None
    }
}

// The simulator of the request that follows those that were answered.
fn next_sim(progress: &Progress) -> Option<SimNo>
    requires { IsSoundProgress progress.now }
    ensures { option_map (λ s. s.0) result ≡ sim_after progress.now.scenario progress.now.answered }
{
    match stage(progress) {
        Stage::Init(sim) => Some(SimNo(sim)),
        Stage::Create(group) => {
            let part = progress.scenario.groups.at(group as usize);
            Some(part.sim)
        }
        Stage::Done(sim) => Some(SimNo(sim)),
        Stage::Over => None,
    }
}

// Takes the content of the reply to the request that is outstanding.
fn take_content(progress: &mut Progress, sim: SimNo, content: &Json) -> Result<(), SetupFault>
    requires kept { IsSoundProgress progress.old }
    requires asked { progress.old.asked ≡ true }
    requires next { IsToSim progress.old.scenario progress.old.answered sim.0 }
    ensures kept { IsSoundProgress progress.new }
    ensures ok { OnOk result ((r : Request) → IsAwaitedBy (state_of progress.old None) sim.0 r
        → with_reply (state_of progress.old None) sim r.call content.now
        ≡ Ok (state_of progress.new None)) }
    ensures untaken { IfErr result (λ e. (r : Request)
        → IsAwaitedBy (state_of progress.old None) sim.0 r
        → IsUntaken (with_reply (state_of progress.old None) sim r.call content.now)
        (state_of progress.old None) e (state_of progress.new None)) }
{
    match stage(progress) {
        Stage::Init(_) => take_meta(progress, sim, content),
        Stage::Create(group) => take_entities(progress, sim, group, content),
        Stage::Done(_) => {
            take_done(progress, sim);
            Ok(())
        }
        Stage::Over => unreachable!(),
    }
}

// Takes the reply to `init`.
fn take_meta(progress: &mut Progress, sim: SimNo, content: &Json) -> Result<(), SetupFault>
    requires kept { IsSoundProgress progress.old }
    requires asked { progress.old.asked ≡ true }
    requires stage { progress.old.answered ≡ sim.0 }
    requires there { sim.0 < length progress.old.scenario.sims }
    ensures kept { IsSoundProgress progress.new }
    ensures ok { OnOk result (with_meta (state_of progress.old None) sim (meta_in content.now)
        ≡ Ok (state_of progress.new None)) }
    ensures untaken { IfErr result
        (λ e. IsUntaken (with_meta (state_of progress.old None) sim (meta_in content.now))
        (state_of progress.old None) e (state_of progress.new None)) }
{
    match read_meta(progress.alloc, content) {
        Ok(meta) => {
            progress.metas.push(meta)?;
            note_reply(progress, sim);
            Ok(())
        }
        Err(fault) => Err(meta_fault(sim, fault)),
    }
}

// Takes the reply to the `create` of this group.
fn take_entities(
    progress: &mut Progress,
    sim: SimNo,
    group: u32,
    content: &Json,
) -> Result<(), SetupFault>
    requires kept { IsSoundProgress progress.old }
    requires asked { progress.old.asked ≡ true }
    requires stage { progress.old.answered ≡ length progress.old.scenario.sims + group }
    requires there { IsGroupOf progress.old.scenario group sim.0 }
    ensures kept { IsSoundProgress progress.new }
    ensures ok { OnOk result ((g : Group) → slice_get progress.old.scenario.groups group ≡ Some g
        → with_entities (state_of progress.old None) sim
        (added_by (state_of progress.old None) sim group g content.now)
        ≡ Ok (state_of progress.new None)) }
    ensures untaken { IfErr result (λ e. (g : Group)
        → slice_get progress.old.scenario.groups group ≡ Some g
        → IsUntaken (with_entities (state_of progress.old None) sim
        (added_by (state_of progress.old None) sim group g content.now))
        (state_of progress.old None) e (state_of progress.new None)) }
{
    let part = progress.scenario.groups.at(group as usize);
    let meta = progress.metas.at(sim.0 as usize);
    match progress
        .entities
        .add(sim, group, part.num, &part.model, meta, content)
    {
        Ok(()) => {
            note_reply(progress, sim);
            Ok(())
        }
        Err(fault) => Err(create_fault(sim, fault)),
    }
}

// Takes the reply to `setup_done`.
fn take_done(progress: &mut Progress, sim: SimNo)
    requires kept { IsSoundProgress progress.old }
    requires asked { progress.old.asked ≡ true }
    requires stage { length progress.old.scenario.sims + length progress.old.scenario.groups ≤
        progress.old.answered }
    requires next { IsToSim progress.old.scenario progress.old.answered sim.0 }
    ensures kept { IsSoundProgress progress.new }
    ensures moved { state_of progress.new None ≡ moved (state_of progress.old None) }
{
    note_reply(progress, sim);
}
