//! From a message to its payload.
ghost use Rattle.std.specs.Prelude.{◌≡◌, ◌≤◌, ◌∷◌, [], pos, true, Ok, IfOk};
ghost use Rattle.mk_base.specs.Trees as trees;
ghost use Rattle.mk_base.specs.Trees.{nesting};
ghost use Rattle.mk_message.specs.Messages.{message_of};
ghost use Rattle.mk_message.specs.Written.{message_text, message_tree, is_readable};
ghost use Rattle.mk_plan.specs.Messages.{is_message_in_range};

use mk_base::{Json, List, Mem, Text};
use mk_json::put_json;
use mk_plan::Message;
use std::alloc::Global;

/// The payload of a message whose whole numbers are in range: the compact text of `[type, id,
/// content]`, with each object's members in byte order of their names. It has that message again
/// where the id is below 2^63, a request's keyword arguments are an object, and the payload nests no
/// deeper than 127.
pub fn write(alloc: Global, message: &Message) -> Result<Vec<u8>, Mem>
    requires { is_message_in_range message.now ≡ true }
    ensures text { IfOk result (λ v. v.items ≡ message_text message.now) }
    ensures reads_back { IfOk result (λ v. is_readable message.now ≡ true
        → nesting (message_tree message.now) ≤ 127 → message_of v.items ≡ Ok message.now) }
{
    let tree = tree_of(alloc, message)?;
    let mut out = Vec::new(alloc);
    put_json(alloc, &mut out, &tree)?;
    Ok(out)
}

fn tree_of(alloc: Global, message: &Message) -> Result<Json, Mem>
    ensures tree { IfOk result (λ t. t ≡ message_tree message.now) }
    ensures in_range { IfOk result
        (λ t. is_message_in_range message.now ≡ true → trees.is_in_range t ≡ true) }
{
    match message {
        Message::Ask {
            id,
            name,
            args,
            named,
        } => {
            let content = request_of(alloc, name, args, named)?;
            framed(alloc, 0, *id, content)
        }
        Message::Success { id, content } => framed(alloc, 1, *id, content.copy(alloc)?),
        Message::Failure { id, text } => framed(alloc, 2, *id, Json::Text(text.copy()?)),
    }
}

fn request_of(alloc: Global, name: &Text, args: &List<Json>, named: &Json) -> Result<Json, Mem>
    ensures { IfOk result
        (λ t. t ≡ Json.List (Json.Text name.now ∷ Json.List args.now ∷ named.now ∷ [])) }
{
    let mut items = List::new(alloc);
    items.push(Json::Text(name.copy()?))?;
    items.push(Json::List(args.copy(alloc)?))?;
    items.push(named.copy(alloc)?)?;
    Ok(Json::List(items))
}

// The list of a type, an id and a content.
fn framed(alloc: Global, kind: u8, id: u64, content: Json) -> Result<Json, Mem>
    ensures tree { IfOk result
        (λ t. t ≡ Json.List (Json.Whole (pos kind) ∷ Json.Whole (pos id) ∷ content ∷ [])) }
    ensures in_range { IfOk result
        (λ t. trees.is_in_range content ≡ true → trees.is_in_range t ≡ true) }
{
    let mut items = List::new(alloc);
    items.push(Json::Whole(kind as i128))?;
    items.push(Json::Whole(id as i128))?;
    items.push(content)?;
    Ok(Json::List(items))
}
