//! What a turn's outputs trigger as it ends, before it closes.
ghost use Rattle.std.specs.Prelude.{◌≡◌, ℕ, ◌<◌, ◌≤◌, ◌≤ℤ◌, ◌∷◌, ◌++◌, ◌&&◌, [], List, false, pos, length, All, OnOk, is_some};
ghost use Rattle.mk_base.specs.Lists.{IsIn};
ghost use Rattle.mk_base.specs.Tiers.{HasWidth};
ghost use Rattle.mk_plan.specs.declared.Plan.{Plan};
ghost use Rattle.mk_plan.specs.declared.Conn.{Conn};
ghost use Rattle.mk_plan.specs.Acts.{Act, made, output};
ghost use Rattle.mk_plan.specs.Journals.{View};
ghost use Rattle.mk_sched_agenda.specs.Dues.{limits_of};
ghost use Rattle.mk_sched_agenda.specs.inner.Dues.{IsTidy, is_inside};
ghost use Rattle.mk_sched_agenda.specs.Endings.{CanBeMade};
ghost use Rattle.mk_sched_agenda.specs.Outlets.{IsOutletOf};
ghost use Rattle.mk_plan.specs.Deliveries.{triggering_from};
ghost use Rattle.mk_sched_agenda.specs.inner.Coming.{HasCome, IsEnding, beyond_over, first_beyond};
ghost use Rattle.mk_order.proofs.Limits.{IsInLimit};
ghost use Rattle.mk_tiers.specs.Noted.{HasNoted};
ghost use Rattle.mk_base.specs.Limits.{latest_end, most_loops};

use crate::dues::Dues;
use crate::limits::{Limits, is_inside};
use crate::outlets::{Beyond, Outlet};
use mk_base::{Mem, Tier};
use mk_tiers::Bits;

// The first of the given outputs, made at `made_at`, that triggers a step beyond the loop limit.
pub fn first_beyond(
    limits: &Limits,
    outlets: &[Outlet],
    given: &[bool],
    made_at: Tier,
) -> Option<Beyond>
    requires loops { limits.now.loops ≤ most_loops }
    requires count { length given.now ≡ length outlets.now }
    requires widths { All (λ o. HasWidth o.via) outlets.now }
    requires made { CanBeMade made_at }
    ensures { result ≡ first_beyond limits.now made_at outlets.now given.now }
{
    for (place, outlet) in outlets.iter().enumerate() {
        if let Some(beyond) = beyond_over(limits, outlet, given[place], made_at) {
            return Some(beyond);
        }
    }
    None
}

// What the output triggers beyond the loop limit, if it is given.
fn beyond_over(limits: &Limits, outlet: &Outlet, given: bool, made_at: Tier) -> Option<Beyond>
    requires loops { limits.now.loops ≤ most_loops }
    requires width { HasWidth outlet.now.via }
    requires made { CanBeMade made_at }
    ensures { result ≡ beyond_over limits.now made_at outlet.now given }
{
    let at = made_at.after(outlet.via);
    if given && at.time < limits.until && at.tier == limits.loops + 1 {
        Some(Beyond {
            sim: outlet.to,
            time: at.time,
        })
    } else {
        None
    }
}

// Triggers what the given outputs, made at `made_at`, trigger within the limits.
pub fn bring_all(
    dues: &mut Dues,
    limits: &Limits,
    outlets: &[Outlet],
    given: &[bool],
    made_at: Tier,
    noted: &mut Bits,
) -> Result<(), Mem>
    requires tidy { IsTidy dues.old.queues.items dues.old.opened dues.old.bounds }
    requires until { limits.now.until ≤ℤ latest_end }
    requires loops { limits.now.loops ≤ most_loops }
    requires count { length given.now ≡ length outlets.now }
    requires outlets { All (λ o. (o.to.0 < length dues.old.queues.items)
        × HasWidth o.via) outlets.now }
    requires made { CanBeMade made_at }
    ensures tidy { IsTidy dues.new.queues.items dues.new.opened dues.new.bounds }
    ensures count { length dues.new.queues.items ≡ length dues.old.queues.items }
    ensures lasts { dues.new.lasts.items ≡ dues.old.lasts.items }
    ensures come { (P : Plan) → (V : View) → (s : ℕ) → (f : Act)
        → IsEnding P s f limits.now outlets.now given.now made_at
        → HasCome P V s f false [] dues.old.queues.items dues.old.bounds
        → OnOk result (HasCome P V s f false
        (triggering_from P s) dues.new.queues.items dues.new.bounds) }
    ensures noted { OnOk result (HasNoted dues.old.bounds dues.new.bounds noted.old noted.new) }
{
    for (place, outlet) in outlets.iter().enumerate() {
        bring(dues, limits, outlet, given[place], made_at, noted)?;
    }
    Ok(())
}

// Triggers what the output triggers within the limits, if it is given.
fn bring(
    dues: &mut Dues,
    limits: &Limits,
    outlet: &Outlet,
    given: bool,
    made_at: Tier,
    noted: &mut Bits,
) -> Result<(), Mem>
    requires tidy { IsTidy dues.old.queues.items dues.old.opened dues.old.bounds }
    requires until { limits.now.until ≤ℤ latest_end }
    requires loops { limits.now.loops ≤ most_loops }
    requires to { outlet.now.to.0 < length dues.old.queues.items }
    requires width { HasWidth outlet.now.via }
    requires made { CanBeMade made_at }
    ensures tidy { IsTidy dues.new.queues.items dues.new.opened dues.new.bounds }
    ensures count { length dues.new.queues.items ≡ length dues.old.queues.items }
    ensures lasts { dues.new.lasts.items ≡ dues.old.lasts.items }
    ensures come { (P : Plan) → (V : View) → (s : ℕ) → (f : Act) → (cs : List Conn) → (c : Conn)
        → IsOutletOf P c outlet.now → IsIn c (triggering_from P s)
        → given ≡ is_some (output P f c.from c.from_attr) → made_at ≡ made f
        → limits.now ≡ limits_of P → IsInLimit P s f
        → HasCome P V s f false cs dues.old.queues.items dues.old.bounds
        → OnOk result (HasCome P V s f false
        (cs ++ c ∷ []) dues.new.queues.items dues.new.bounds) }
    ensures noted { OnOk result (HasNoted dues.old.bounds dues.new.bounds noted.old noted.new) }
{
    let at = made_at.after(outlet.via);
    if is_brought(limits, given, at) {
        dues.trigger(outlet.to, at, noted)?;
    }
    Ok(())
}

// Whether an output triggers a step then.
fn is_brought(limits: &Limits, given: bool, at: Tier) -> bool
    ensures { result ≡ (given && is_inside limits.now at) }
{
    given && is_inside(limits, at)
}
