//! What a simulator that was started anew is sent again: the items of the journal that are free.
ghost use Rattle.std.specs.Prelude.{◌≡◌, ◌<◌, ℕ, List, [], None, Some, OnOk, IfSome, length, slice_get};
ghost use Rattle.mk_base.specs.declared.SimNo.{SimNo};
ghost use Rattle.mk_outside.specs.declared.fleet.LogEntry.{LogEntry};
ghost use Rattle.mk_local.specs.Registries.{rows_in};
ghost use Rattle.mk_plan.specs.declared.Entry.TheVariants as entry;
ghost use Rattle.mk_plan.specs.declared.Message.{Message};
ghost use Rattle.mk_plan.specs.Plans.{sim_count};
ghost use Rattle.mk_run_local.specs.Seen.{AreOf};
ghost use Rattle.mk_run_crew.specs.Seen.{crew_of, within_of};
ghost use Rattle.mk_run.specs.inner.Underway.{Setting};
ghost use Rattle.mk_run.specs.inner.Turns.{IsStill};
ghost use Rattle.mk_resume_links.specs.inner.Touching.{RestsOver};
ghost use Rattle.mk_resume_loop.specs.inner.Underway.{IsResumingWith, course_of, saved_of};
ghost use Rattle.mk_resume_loop.specs.inner.Turns.{BeginsAs, IsDue, IsSized, PassesAs, Walk};
ghost use Rattle.mk_resume_loop.specs.inner.Standings.{standing_at};

use crate::behind::{Behind, Standing};
use crate::ending::ResumeEnd;
use mk_base::SimNo;
use mk_local::Registry;
use mk_plan::{Entry, Item};
use mk_run::Outcome;
use mk_run_crew::Crew;
use mk_run_links::id_behind;
use mk_run_local::replies_are_kinds;
use mk_sched::Core;

// Where a simulator stands, its next entry having been looked up behind so many.
fn standing_at(next: Option<usize>, gone: usize, id: u64) -> Option<Standing>
    requires { gone < usize.MAX }
    ensures { result ≡ standing_at next gone id }
{
    match next {
        Some(place) => Some(Standing {
            place,
            gone: gone + 1,
            id,
        }),
        None => None,
    }
}

// The item that stands at this place, if there is a place and no message stands there.
fn item_at(entries: &[Entry], next: Option<usize>) -> Option<&Item>
    requires { IfSome next (λ p. p < length entries.now) }
    ensures item { IfSome result (λ item. (p : ℕ) × (s : SimNo) × (next ≡ Some p)
        × (slice_get entries.now p ≡ Some (entry.Sent s item.now))) }
    ensures none { result ≡ None → (p : ℕ) → next ≡ Some p
        → (s : SimNo) × (m : Message) × (slice_get entries.now p ≡ Some (entry.Got s m)) }
{
    match next {
        Some(place) => match &entries[place] {
            Entry::Sent(_, item) => Some(item),
            Entry::Got(_, _) => None,
        },
        None => None,
    }
}

// Sends the simulator its item behind so many entries of it, if one stands there, and goes on to
// its next message.
pub fn go_on(
    core: &Core,
    crew: &mut Crew,
    kinds: &Registry,
    behind: &mut Behind,
    sim: SimNo,
    gone: usize,
    id: u64,
) -> Result<(), ResumeEnd>
    requires there { sim.0 < sim_count core.now.plan }
    requires known { AreOf (rows_in kinds.now) (within_of crew.old) }
    requires sized { IsSized core.now behind.old }
    requires due { (R : Walk) × IsDue R core.now crew.old sim.0 gone id }
    ensures passed { PassesAs result core.now sim.0 gone id crew.old crew.new behind.new }
    ensures sized { OnOk result (IsSized core.now behind.new) }
    ensures others { (i : ℕ) → (i ≡ sim.0 → ⊥)
        → slice_get behind.new.sims i ≡ slice_get behind.old.sims i }
    ensures still { IsStill crew.old crew.new }
    ensures same_halt { crew.new.halt ≡ crew.old.halt }
{
    replies_are_kinds();
    let entries = core.journal().entries.as_slice();
    behind.grow(entries)?;
    let next = behind.next(sim, gone);
    match item_at(entries, next) {
        None => {
            behind.set(sim, standing_at(next, gone, id));
            Ok(())
        }
        Some(item) => match crew.send(kinds, sim, item, id) {
            Ok(()) => {
                let later = behind.next(sim, gone + 1);
                behind.set(sim, standing_at(later, gone + 1, id_behind(item, id)));
                Ok(())
            }
            Err(halt) => Err(ResumeEnd::Outcome(Outcome::from(halt))),
        },
    }
}

/// Sends each simulator the item that its entries in the journal begin with, if they do; or the run
/// ends.
pub fn begin(
    core: &Core,
    crew: &mut Crew,
    kinds: &Registry,
    behind: &mut Behind,
) -> Result<(), ResumeEnd>
    requires known { AreOf (rows_in kinds.now) (within_of crew.old) }
    requires sized { IsSized core.now behind.old }
    requires underway { (T : Setting) × (log : List LogEntry)
        × IsResumingWith (course_of T core.now.entries (λ i. 0) (λ i. []) (λ i. []) log)
        core.now.plan core.now.entries (crew_of crew.old) crew.old.sims
        × RestsOver (saved_of core.now.entries) T.started T.scenario T.replies core.now.plan
        core.now.entries log }
    ensures begun { BeginsAs result core.now crew.old crew.new behind.new }
    ensures still { IsStill crew.old crew.new }
    ensures same_halt { crew.new.halt ≡ crew.old.halt }
{
    let sims = core.plan().sims.as_slice();
    for sim in 0..sims.len() as u32 {
        go_on(
            core,
            crew,
            kinds,
            behind,
            SimNo(sim),
            0,
            sims[sim as usize].first_id,
        )?;
    }
    Ok(())
}
