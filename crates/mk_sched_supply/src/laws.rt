//! What entries that deliver nothing leave of a stock.
ghost use Rattle.std.specs.Prelude.{◌≡◌, ℤ, false, List, None, Some};
ghost use Rattle.mk_base.specs.declared.SimNo.{SimNo};
ghost use Rattle.mk_base.specs.declared.tier.Tier.{Tier};
ghost use Rattle.mk_plan.specs.declared.Plan.{Plan};
ghost use Rattle.mk_plan.specs.declared.Entry.{Entry};
ghost use Rattle.mk_plan.specs.declared.Entry.TheVariants.{Sent, Got};
ghost use Rattle.mk_plan.specs.declared.Input.{Input};
ghost use Rattle.mk_plan.specs.declared.Item.{Item};
ghost use Rattle.mk_plan.specs.declared.Item.TheVariants.{Step};
ghost use Rattle.mk_plan.specs.declared.Message.{Message};
ghost use Rattle.mk_plan.specs.declared.Place.{Place};
ghost use Rattle.mk_plan.specs.Acts.{is_ask, outputs_in};
ghost use Rattle.mk_plan.specs.Deliveries.{supply};
ghost use Rattle.mk_plan.specs.Sequential.{response};
ghost use Rattle.mk_plan.specs.Journals.{OpenTurn, view, ended_turn, note_right, note_sent};
ghost use Rattle.mk_plan.specs.Report.{is_step};
ghost use Rattle.mk_sched_open.specs.Turns.{IsRight};
ghost use Rattle.mk_sched_supply.specs.declared.stock.Stock.{Stock};
ghost use Rattle.mk_sched_supply.specs.Stock.{IsStockOf, MayComeNext};

/// A stock stays that of the view where a Step is sent; where a reply comes after which the turn goes on, and what is
/// owed is sent; and where a turn without outputs ends.
pub fn stock_stays()
    ensures step { (P : Plan) (J : List Entry) (k : Stock) (s : SimNo) (x : Tier) (ins : List Input)
        (advance : ℤ) → MayComeNext P J (Sent s (Step x ins advance)) → IsStockOf P (view P J) k
        → IsStockOf P (note_sent P (view P J) s.0 (Step x ins advance)) k }
    ensures fetching { (P : Plan) (J : List Entry) (k : Stock) (s : SimNo) (m : Message)
        (T : OpenTurn) (q : Place) (item : Item) → MayComeNext P J (Got s m)
        → IsRight P (view P J) s.0 m T (Some q)
        → is_ask m ≡ false → is_step item ≡ false
        → item ≡ response P (supply P (view P J).acts) s.0 T.at T.place m → IsStockOf P (view P J) k
        → IsStockOf P (note_sent P (note_right P (view P J) s.0 m T (Some q)) s.0 item) k }
    ensures ended { (P : Plan) (J : List Entry) (k : Stock) (s : SimNo) (m : Message) (T : OpenTurn)
        → MayComeNext P J (Got s m) → IsRight P (view P J) s.0 m T None
        → outputs_in (ended_turn T m) ≡ None
        → IsStockOf P (view P J) k → IsStockOf P (note_right P (view P J) s.0 m T None) k }
{}
