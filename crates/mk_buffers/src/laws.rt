//! Laws of what buffers stand for, for those that hold them.
ghost use Rattle.std.specs.Prelude.{◌≡◌, ℕ, ◌<◌, true, List, [], length};
ghost use Rattle.mk_base.specs.Tiers.{IsUpTo};
ghost use Rattle.mk_plan.specs.declared.Plan.{Plan};
ghost use Rattle.mk_plan.specs.declared.Want.{Want};
ghost use Rattle.mk_plan.specs.Plans.{owner, eid_of};
ghost use Rattle.mk_plan.specs.Deliveries.{Supply};
ghost use Rattle.mk_buffers.specs.declared.buffers.Buffers.{Buffers};
ghost use Rattle.mk_buffers.specs.Marking.{asks_of};
ghost use Rattle.mk_buffers.specs.Standing.{HasKey, IsNew, IsOutletFor, IsUnchanged, StandFor, least_mark, mark_of};

/// New buffers stand for a supply of nothing, unchanged ones for what they stood for; a wanted attribute's outlet is
/// that of an entity of its simulator; the least mark is that of a simulator that asks, and up to those of all that
/// ask.
pub fn buffers_stand()
    ensures new { (P : Plan) (b : Buffers) (S : Supply) → IsNew P b
        → ((e : ℕ) (attr : List ℕ) → S.outputs e attr ≡ []) → ((e : ℕ) → S.gifts e ≡ [])
        → StandFor P b S }
    ensures unchanged { (P : Plan) (old : Buffers) (new : Buffers) (S : Supply) → StandFor P old S
        → IsUnchanged old new → StandFor P new S }
    ensures outlets { (P : Plan) (b : Buffers) (s : ℕ) (w : Want) (place : ℕ)
        → IsOutletFor P b s w place → (e : ℕ) × (owner P e ≡ s) × (eid_of P e ≡ w.eid)
        × HasKey b e w.attr place }
    ensures low { (P : Plan) (b : Buffers) (S : Supply) (s : ℕ) → StandFor P b S → s < length P.sims
        → asks_of P s ≡ true → IsUpTo (least_mark b) (mark_of b s) }
    ensures held { (P : Plan) (b : Buffers) (S : Supply) (s : ℕ) → StandFor P b S
        → s < length P.sims
        → asks_of P s ≡ true → (r : ℕ) × (asks_of P r ≡ true) × (mark_of b r ≡ least_mark b) }
{}
