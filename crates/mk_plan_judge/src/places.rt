//! What is open after a right message.
ghost use Rattle.std.specs.Prelude.{◌≡◌, ℕ, ◌<◌, ◌^◌, ◌+◌, None};
ghost use Rattle.mk_plan.specs.declared.Plan.{Plan};
ghost use Rattle.mk_plan.specs.Turns.{next_place, wanted, wrong};
ghost use Rattle.mk_plan_judge.specs.Places.{open_id};

use mk_base::List;
use mk_plan::{Message, Place, Want};

/// The place of what is open after a right message at this place, of a simulator of which each GetData asks for
/// `wants`; `None` where the turn has ended. A request leaves the Step open; the Step's reply is followed by a GetData
/// under the next id, if it asks for anything, so if some connection leaves the simulator.
pub fn next_place(wants: &List<Want>, place: &Place, message: &Message) -> Option<Place>
    requires right { (P : Plan) × (i : ℕ) × (wrong P i place.now message.now ≡ None) }
    requires more { open_id place.now + 1 < 2 ^ 64 }
    ensures { (P : Plan) → (i : ℕ) → wants.now ≡ wanted P i
        → result ≡ next_place P i place.now message.now }
{
    match place {
        Place::Idle => None,
        Place::Stepping { at, id, asks } => match message {
            Message::Ask {
                id: _,
                name: _,
                args: _,
                named: _,
            } => Some(Place::Stepping {
                at: *at,
                id: *id,
                asks: *asks + 1,
            }),
            Message::Success { id: _, content: _ } => {
                if wants.is_empty() {
                    None
                } else {
                    Some(Place::Fetching {
                        at: *at,
                        id: *id + 1,
                    })
                }
            }
            Message::Failure { id: _, text: _ } => None,
        },
        Place::Fetching { at: _, id: _ } => None,
    }
}
