//! Which simulators are to blame: the crate's call.
ghost use Rattle.std.specs.Prelude.{◌≡◌, List, map, IfOk};
ghost use Rattle.mk_plan.specs.declared.Plan.{Plan};
ghost use Rattle.mk_plan.specs.declared.Entry.{Entry};
ghost use Rattle.mk_plan.specs.Plans.{IsValidPlan};
ghost use Rattle.mk_plan.specs.Orderly.{IsOrderly};
ghost use Rattle.mk_plan.specs.Agreement.{IsFinished};
ghost use Rattle.mk_blame.specs.declared.verdict.Verdict.{Verdict};
ghost use Rattle.mk_blame.specs.Talks.{said};
ghost use Rattle.mk_blame.specs.Verdicts.{IsVerdict};
ghost use Rattle.mk_blame.specs.inner.Parted.{BeginsWithStep, JudgedOf};

use crate::parting::{Parting, compared};
use crate::talks::talks_of;
use crate::verdict::{Blamed, Verdict};
use mk_base::{List, Mem, SimNo};
use mk_plan::{Entry, Journal, Plan};
use std::alloc::Global;

/// Which simulators are to blame that two finished journals of a plan differ: those whose talks are
/// equal up to a place at which both have a message, and these differ. A simulator whose inputs
/// changed, since another one answered differently, isn't among them; and where the talks of some
/// simulator differ, there is one at least. `Mem` is want of memory.
pub fn blame(alloc: Global, plan: &Plan, first: &Journal, second: &Journal) -> Result<Verdict, Mem>
    requires valid { IsValidPlan plan.now }
    requires first_orderly { IsOrderly plan.now first.now.entries }
    requires first_finished { IsFinished plan.now first.now.entries }
    requires second_orderly { IsOrderly plan.now second.now.entries }
    requires second_finished { IsFinished plan.now second.now.entries }
    ensures { IfOk result
        (λ verdict. IsVerdict plan.now first.now.entries second.now.entries verdict) }
{
    let count = plan.sims.len();
    let talks = talks_of(alloc, count, first.entries.as_slice())?;
    let others = talks_of(alloc, count, second.entries.as_slice())?;
    let mut blamed = List::new(alloc);
    let mut equal = true;
    for sim in 0..count {
        if !judge(
            alloc,
            sim as u32,
            talks[sim].as_slice(),
            others[sim].as_slice(),
            &mut blamed,
        )? {
            equal = false;
        }
    }
    if equal {
        Ok(Verdict::Equal)
    } else {
        Ok(Verdict::Blamed(blamed))
    }
}

// Whether the talks of a simulator are equal; puts it behind those to blame, if it is to blame.
fn judge(
    alloc: Global,
    sim: u32,
    talk: &[&Entry],
    other: &[&Entry],
    blamed: &mut List<Blamed>,
) -> Result<bool, Mem>
    requires { BeginsWithStep (map (λ e. said e.now) talk.now) }
    ensures { IfOk result
        (λ equal. JudgedOf (map (λ e. said e.now) talk.now)
        (map (λ e. said e.now) other.now) sim blamed.old equal blamed.new) }
{
    match compared(talk, other) {
        Parting::Never => Ok(true),
        Parting::End => Ok(false),
        Parting::Entry { number, place, at } => match (talk[number], other[number], at) {
            (Entry::Got(_, message), Entry::Got(_, another), Some(at)) => {
                blamed.push(Blamed {
                    sim: SimNo(sim),
                    place,
                    at,
                    first: message.copy(alloc)?,
                    second: another.copy(alloc)?,
                })?;
                Ok(false)
            }
            _ => Ok(false),
        },
    }
}

/// Of two journals comes one verdict.
pub fn verdict_is_one()
    ensures { (P : Plan) → (J : List Entry) → (K : List Entry) → (v : Verdict) → (w : Verdict)
        → IsVerdict P J K v → IsVerdict P J K w → v ≡ w }
{}
