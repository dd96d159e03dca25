//! Whether two entries say the same.
ghost use Rattle.std.specs.Prelude.{◌≡◌};
ghost use Rattle.mk_plan_same.specs.Decisions.{Decides};
ghost use Rattle.mk_plan.specs.Journals.{bare};
ghost use Rattle.mk_blame.specs.Talks.{said};

use mk_plan::{Entry, Item};
use mk_plan_same::{Same, same_all};
use mk_record_compare::same_message;

/// Whether two entries of a simulator say the same, `max_advance` aside.
pub fn says_same(one: &Entry, other: &Entry) -> bool
    ensures { Decides result (said one.now ≡ said other.now) }
{
    match (one, other) {
        (Entry::Sent(_, item), Entry::Sent(_, another)) => same_item(item, another),
        (Entry::Got(_, message), Entry::Got(_, another)) => same_message(message, another),
        _ => false,
    }
}

fn same_item(one: &Item, other: &Item) -> bool
    ensures { Decides result (bare one.now ≡ bare other.now) }
{
    match (one, other) {
        (
            Item::Step {
                at,
                inputs,
                max_advance: _,
            },
            Item::Step {
                at: other_at,
                inputs: others,
                max_advance: _,
            },
        ) => at.same(other_at) && same_all(inputs, others),
        (Item::GetData { wanted }, Item::GetData { wanted: others }) => same_all(wanted, others),
        (
            Item::Answer { id, content },
            Item::Answer {
                id: other_id,
                content: another,
            },
        ) => *id == *other_id && content.same(another),
        (
            Item::Refuse { id, reason },
            Item::Refuse {
                id: other_id,
                reason: another,
            },
        ) => *id == *other_id && *reason == *another,
        _ => false,
    }
}
