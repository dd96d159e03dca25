//! Buffers: the tables of what is held of a run, as they are made of a plan, and how much they hold.
ghost use Rattle.std.specs.Prelude.{◌≡◌, ℕ, ◌+◌, ◌≤◌, ◌<◌, min, length, IfOk, IfSome, IfNone, Some, List, slice_get};
ghost use Rattle.mk_plan.specs.declared.Plan.{Plan};
ghost use Rattle.mk_plan.specs.declared.Want.{Want};
ghost use Rattle.mk_plan.specs.Turns.{wanted};
ghost use Rattle.mk_plan.specs.Plans.{IsValidPlan};
ghost use Rattle.mk_plan.specs.Deliveries.{Supply};
ghost use Rattle.mk_buffers.specs.Bounds.{most_kept};
ghost use Rattle.mk_buffers.specs.declared.inlets.Target.{Target};
ghost use Rattle.mk_buffers.specs.declared.outlets.Source.{Source};
ghost use Rattle.mk_buffers.specs.inner.Building.{AreOutlets, AreParts, HasSources};
ghost use Rattle.mk_buffers.specs.inner.Held.{IsKeyAt, IsKeyless};
ghost use Rattle.mk_buffers.specs.inner.Listing.{AreListed, AreTargets};
ghost use Rattle.mk_buffers.specs.inner.Beginning.{HasStarts};
ghost use Rattle.mk_buffers.specs.inner.Standing.{AreHomes};

use crate::inlets::{Inlet, inlets_of};
use crate::marks::Marks;
use crate::outlets::{Outlet, Outlets, Part, has_key, outlets_of};
use crate::sets::Sets;
use crate::tables::{Starts, homes_of, starts_of};
use mk_base::{Mem, SimNo, Text, Tier};
use mk_plan::Plan;
use std::alloc::Global;

// An entity: its simulator, its name there, and its outlets.
#[derive(Drop)]
pub struct Home {
    pub sim: usize,
    pub eid: Text,
    pub outlets: Part,
}

/// The outputs and set values of a run that its questions can still reach.
#[derive(Drop)]
pub struct Buffers {
    pub(crate) alloc: Global,
    pub(crate) until: i64,
    pub(crate) homes: Vec<Home>,
    pub(crate) outlets: Vec<Outlet>,
    pub(crate) feeds: Vec<Part>,
    pub(crate) next_marks: Vec<Option<Tier>>,
    pub(crate) inlets: Vec<Vec<Inlet>>,
    pub(crate) sets: Vec<Sets>,
    pub(crate) marks: Marks,
}

impl Buffers {
    ghost use Rattle.mk_buffers.specs.Standing.{HasKey, LacksKey, StandFor, least_mark, outputs_held, IsNew, IsOfPlan, IsOutletFor};

    /// Buffers of a plan before anything was added. Fails for want of memory alone.
    pub fn new(alloc: Global, plan: &Plan) -> Result<Buffers, Mem>
        requires { IsValidPlan plan.now }
        ensures { IfOk result (λ b. IsNew plan.now b) }
    {
        let outlets = outlets_of(alloc, plan)?;
        let inlets = inlets_of(alloc, plan, outlets.of_conn.as_slice())?;
        let homes = homes_of(alloc, plan, outlets.of_entity.as_slice())?;
        let starts = starts_of(alloc, plan)?;
        Ok(Buffers::of_tables(alloc, plan, outlets, inlets, homes, starts))
    }

    // The buffers of these tables.
    fn of_tables(
        alloc: Global,
        plan: &Plan,
        outlets: Outlets,
        inlets: Vec<Vec<Inlet>>,
        homes: Vec<Home>,
        starts: Starts,
    ) -> Buffers
        requires valid { IsValidPlan plan.now }
        requires outlets { (done : List Source)
            × HasSources plan.now (length plan.now.conns) done
            × AreOutlets plan.now done done outlets
            × AreParts (length plan.now.sims) outlets.all.items outlets.of_sim.items }
        requires inlets { (done : List Target) × AreTargets plan.now outlets.of_conn.items done
            × AreListed (length plan.now.sims) done inlets.items }
        requires homes { AreHomes plan.now outlets.of_entity.items homes.items }
        requires starts { HasStarts plan.now starts }
        ensures { IsNew plan.now result }
    {
        Buffers {
            alloc,
            until: plan.until,
            homes,
            outlets: outlets.all,
            feeds: outlets.of_sim,
            next_marks: starts.next_marks,
            inlets,
            sets: starts.sets,
            marks: starts.marks,
        }
    }

    /// How many simulators the plan has, where their tables are whole.
    pub fn sims(&self) -> usize
        ensures inlets { result ≤ length self.now.inlets.items }
        ensures sets { result ≤ length self.now.sets.items }
        ensures marks { result ≤ length self.now.marks.marks }
        ensures feeds { result ≤ length self.now.feeds.items }
        ensures whole { (P : Plan) → IsOfPlan P self.now → result ≡ length P.sims }
    {
        let tables = self.inlets.len().min(self.sets.len());
        tables.min(self.marks.len()).min(self.feeds.len())
    }

    /// Where the outlets of a simulator begin: its wanted attributes have one each, in their order.
    pub fn first_outlet(&self, sim: SimNo) -> usize
        ensures { (P : Plan) (S : Supply) → StandFor P self.now S → sim.0 < length P.sims
            → (i : ℕ) (w : Want) → slice_get (wanted P sim.0) i ≡ Some w
            → IsOutletFor P self.now sim.0 w (result + i) }
    {
        match self.feeds.get(sim.0 as usize) {
            Some(part) => part.first,
            // there is no such simulator, and so none of its outlets is looked for
            None => 0,
        }
    }

    /// The outlet of an entity's attribute; `None` exactly where the entity has none of that attribute. Takes no
    /// memory.
    pub fn outlet(&self, entity: u32, attr: &Text) -> Option<usize>
        ensures found { IfSome result (λ i. HasKey self.now entity attr.now i) }
        ensures none { IfNone result (LacksKey self.now entity attr.now) }
    {
        match self.homes.get(entity as usize) {
            Some(home) => outlet_in(self.outlets.as_slice(), home.outlets, entity, attr),
            None => None,
        }
    }

    /// How many outputs are held; takes no memory. They are at most as many as there are connections, distinct source
    /// attributes, and late outputs of all that were added: outputs whose making, or whose delivery over some
    /// connection before the run's end, is later than the least mark.
    pub fn kept(&self) -> usize
        ensures count { result ≡ min (outputs_held self.now) 18446744073709551615 }
        ensures few { (P : Plan) (S : Supply) → StandFor P self.now S
            → result ≤ most_kept P S (least_mark self.now) }
    {
        self.held()
    }

    // How many outputs are held.
    fn held(&self) -> usize
        ensures { result ≡ min (outputs_held self.now) 18446744073709551615 }
    {
        let mut kept: usize = 0;
        for outlet in &self.outlets {
            kept = kept.saturating_add(outlet.log.len());
        }
        kept
    }
}

// The outlet of an entity's attribute among those of the entity.
fn outlet_in(outlets: &[Outlet], part: Part, entity: u32, attr: &Text) -> Option<usize>
    ensures found { IfSome result (λ i. IsKeyAt outlets.now entity attr.now i) }
    ensures none { IfNone result (IsKeyless outlets.now entity attr.now part.first part.end) }
{
    for place in part.first..part.end {
        if has_key(outlets, entity, attr, place) {
            return Some(place);
        }
    }
    None
}
