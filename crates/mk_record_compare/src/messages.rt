//! Whether two messages are the same.
ghost use Rattle.std.specs.Prelude.{◌≡◌};
ghost use Rattle.mk_plan_same.specs.Decisions.{Decides};

use crate::trees::{same_items, same_tree};
use mk_plan::Message;
use mk_plan_same::Same;

/// Whether two messages are the same, their trees as in `same_tree`.
pub fn same_message(one: &Message, other: &Message) -> bool
    ensures { Decides result (one.now ≡ other.now) }
{
    match (one, other) {
        (
            Message::Ask {
                id,
                name,
                args,
                named,
            },
            Message::Ask {
                id: other_id,
                name: other_name,
                args: other_args,
                named: other_named,
            },
        ) => {
            *id == *other_id
                && name.same(other_name)
                && same_items(args, other_args)
                && same_tree(named, other_named)
        }
        (
            Message::Success { id, content },
            Message::Success {
                id: other_id,
                content: other_content,
            },
        ) => *id == *other_id && same_tree(content, other_content),
        (
            Message::Failure { id, text },
            Message::Failure {
                id: other_id,
                text: other_text,
            },
        ) => *id == *other_id && text.same(other_text),
        _ => false,
    }
}
