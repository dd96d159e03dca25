//! What the replies that end turns make of them.
ghost use Rattle.std.specs.Prelude.{◌≡◌, ◌<◌, ℕ, List, ◌∷◌, [], Some};
ghost use Rattle.mk_base.specs.declared.tier.Tier.{Tier};
ghost use Rattle.mk_base.specs.declared.json.Json.{Json};
ghost use Rattle.mk_plan.specs.declared.Plan.{Plan};
ghost use Rattle.mk_plan.specs.declared.Message.{Message};
ghost use Rattle.mk_plan.specs.declared.Place.TheVariants.{Stepping, Fetching};
ghost use Rattle.mk_plan.specs.Plans.{sim_count};
ghost use Rattle.mk_plan.specs.Acts.{content_of, contents, outputs_in};
ghost use Rattle.mk_plan.specs.Journals.{View, OpenTurn, ended_turn};
ghost use Rattle.mk_sched_open.specs.declared.sims.Sim.{Sim};
ghost use Rattle.mk_sched_open.specs.Sims.{AreSimsOf};

/// What a success reply that ends a turn makes of it: its outputs where a GetData was open, and the only content that
/// the turn has where a Step was. The place has the turn's time.
pub fn ends_of_turns()
    ensures fetched { (P : Plan) → (V : View) → (n : ℕ) → (sims : List Sim) → (s : ℕ)
        → (T : OpenTurn) → (x : Tier) → (id : ℕ) → (m : Message) → (content : Json)
        → AreSimsOf P V n sims → s < sim_count P → V.open_at s ≡ Some T → T.place ≡ Fetching x id
        → content_of m ≡ Some content → (outputs_in (ended_turn T m) ≡ Some content) × (T.at ≡ x) }
    ensures stepped { (P : Plan) → (V : View) → (n : ℕ) → (sims : List Sim) → (s : ℕ)
        → (T : OpenTurn) → (x : Tier) → (id : ℕ) → (asks : ℕ) → (m : Message) → (content : Json)
        → AreSimsOf P V n sims → s < sim_count P → V.open_at s ≡ Some T
        → T.place ≡ Stepping x id asks → content_of m ≡ Some content
        → (contents (ended_turn T m) ≡ content ∷ []) × (T.at ≡ x) }
{}
