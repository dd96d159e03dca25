//! The theorems of the scheduler, at any valid plan.
#![tactic(auto)]

ghost use Rattle.std.specs.Prelude.{◌≡◌, ◌⊎◌, ◌<◌, ℕ, ℤ, List, None, Some, [], ◌++◌, ◌∷◌, true, false};
ghost use Rattle.mk_base.specs.Lists.{BeginsWith};
ghost use Rattle.mk_base.specs.declared.tier.Tier.{Tier};
ghost use Rattle.mk_plan.specs.declared.Entry.{Entry};
ghost use Rattle.mk_plan.specs.declared.Message.{Message};
ghost use Rattle.mk_plan.specs.Plans.{IsValidPlan, sim_count};
ghost use Rattle.mk_plan.specs.Turns.{is_wrong};
ghost use Rattle.mk_plan.specs.Sequential.{Messages, sequential, all_ended, messages_in, run_talk};
ghost use Rattle.mk_plan.specs.Journals.{OpenTurn, view, got, heard, arrivals};
ghost use Rattle.mk_plan.specs.Orderly.{IsAllowed, IsOrderlySoFar, IsOrderly, IsEager};
ghost use Rattle.mk_plan.specs.Ready.{pending, IsReady, IsDone};
ghost use Rattle.mk_plan.specs.Advance.{IsAdvance, IsPromised};
ghost use Rattle.mk_order.specs.LowerBound.{IsBounded, HasAll};
ghost use Rattle.mk_order.specs.Rising.{BoundsRise, DuesAreLater, NothingIsMissed};
ghost use Rattle.mk_plan.specs.Agreement.{Agrees, Continues, IsFinished, Alike};

use mk_plan::Plan;

/// Over all messages that may still come, each simulator was sent the beginning of what sequential execution sends it.
pub fn agreement(plan: &Plan)
    requires { IsValidPlan plan.now }
    ensures { (J : List Entry) → IsOrderly plan.now J → Agrees plan.now J }
{}

/// A journal without a fault, at whose end nothing is open and nothing is pending, has all of it.
pub fn completion(plan: &Plan)
    requires { IsValidPlan plan.now }
    ensures { (J : List Entry) → IsOrderly plan.now J → IsDone plan.now (view plan.now J)
        → IsFinished plan.now J }
{}

/// To a simulator that sends nothing more itself no trigger comes after the time of its Step and at or before its
/// max_advance.
pub fn promise(plan: &Plan)
    requires { IsValidPlan plan.now }
    ensures { (J : List Entry) → IsOrderlySoFar IsReady IsAdvance plan.now J
        → (view plan.now J).fault ≡ None → (s : ℕ) → (x : Tier) → (m : ℤ) → s < sim_count plan.now
        → IsReady plan.now (view plan.now J) s x → IsAdvance plan.now (view plan.now J) s x m
        → (R : Messages) → Continues plan.now J R → R s ≡ got J s
        → IsPromised plan.now R s x.time m }
{}

/// Where nothing is open and something is pending, somebody is ready.
pub fn progress(plan: &Plan)
    requires { IsValidPlan plan.now }
    ensures { (J : List Entry) → IsOrderlySoFar IsReady IsAdvance plan.now J
        → ((i : ℕ) → i < sim_count plan.now → (view plan.now J).open_at i ≡ None) → (i : ℕ)
        → (y : Tier)
        → pending plan.now (view plan.now J).acts i ≡ Some y → (s : ℕ) × (x : Tier)
        × IsReady plan.now (view plan.now J) s x }
{}

/// Over two families of messages that cut no turn and that agree wherever both have a message after the same talk, all
/// that is said is the same. A finished journal's messages cut no turn.
pub fn comparison(plan: &Plan)
    requires { IsValidPlan plan.now }
    ensures { (R : Messages) → (Q : Messages)
        → ((i : ℕ) → i < sim_count plan.now → all_ended (sequential plan.now R i) ≡ true)
        → ((i : ℕ) → i < sim_count plan.now → all_ended (sequential plan.now Q i) ≡ true)
        → Alike plan.now R Q → (i : ℕ) → run_talk plan.now R i ≡ run_talk plan.now Q i }
{}

/// Of two eager journals one begins with the other, if so do the messages that came.
pub fn replaying(plan: &Plan)
    ensures { (J : List Entry) → (K : List Entry) → IsEager plan.now J → IsEager plan.now K
        → BeginsWith (arrivals K) (arrivals J) ⊎ BeginsWith (arrivals J) (arrivals K)
        → BeginsWith K J ⊎ BeginsWith J K }
{}

/// While the arrivals of a finished record come in another order, an open turn has a right message left.
pub fn reordering(plan: &Plan)
    requires { IsValidPlan plan.now }
    ensures { (R : Messages)
        → ((i : ℕ) → i < sim_count plan.now → all_ended (sequential plan.now R i) ≡ true)
        → ((i : ℕ) → i < sim_count plan.now → messages_in (sequential plan.now R i) ≡ R i)
        → (J : List Entry) → IsOrderlySoFar IsReady IsAdvance plan.now J
        → Continues plan.now J R → (i : ℕ) → (T : OpenTurn) → i < sim_count plan.now
        → (view plan.now J).open_at i ≡ Some T
        → (m : Message) × (later : List Message) × (R i ≡ heard (view plan.now J) i ++ (m ∷ later))
        × (is_wrong plan.now i T.place m ≡ false) }
{}

/// Where nothing is left to do, all messages of such a record came.
pub fn emptying(plan: &Plan)
    requires { IsValidPlan plan.now }
    ensures { (R : Messages)
        → ((i : ℕ) → i < sim_count plan.now → messages_in (sequential plan.now R i) ≡ R i)
        → (J : List Entry) → IsOrderlySoFar IsReady IsAdvance plan.now J
        → Continues plan.now J R → IsDone plan.now (view plan.now J) → (i : ℕ)
        → i < sim_count plan.now → got J i ≡ R i }
{}

/// No unknown turn of a simulator outside a set starts before the least end of the walks to it that avoid the set,
/// where the set's simulators send nothing more.
pub fn lower_bound(plan: &Plan)
    requires { IsValidPlan plan.now }
    ensures { (J : List Entry) → IsOrderlySoFar IsReady IsAdvance plan.now J
        → (view plan.now J).fault ≡ None → IsBounded plan.now J }
{}

/// Whatever may still come, a simulator that is ready has all that concerns its step.
pub fn nothing_new(plan: &Plan)
    requires { IsValidPlan plan.now }
    ensures { (J : List Entry) → IsOrderlySoFar IsReady IsAdvance plan.now J → (R : Messages)
        → Continues plan.now J R → (s : ℕ) → (x : Tier) → IsReady plan.now (view plan.now J) s x
        → HasAll plan.now (view plan.now J) R s x }
{}

/// By no entry does a bound fall or a trigger come late: what queues and the giving up of values rest on.
pub fn rising(plan: &Plan)
    requires { IsValidPlan plan.now }
    ensures missed { (J : List Entry) → IsOrderlySoFar IsReady IsAdvance plan.now J
        → NothingIsMissed plan.now (view plan.now J) }
    ensures bounds { (J : List Entry) → (e : Entry) → IsOrderlySoFar IsReady IsAdvance plan.now J
        → IsAllowed IsReady IsAdvance plan.now (view plan.now J) e
        → BoundsRise plan.now (view plan.now J) (view plan.now (J ++ e ∷ [])) }
    ensures dues { (J : List Entry) → (e : Entry) → IsOrderlySoFar IsReady IsAdvance plan.now J
        → IsAllowed IsReady IsAdvance plan.now (view plan.now J) e
        → DuesAreLater plan.now (view plan.now J) (view plan.now (J ++ e ∷ [])) }
{}
