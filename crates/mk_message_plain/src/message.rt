//! From a payload to the message that it plainly says.
ghost use Rattle.std.specs.Prelude.{◌≡◌, ◌<◌, ◌^◌, ◌∷◌, true, Ok, IfOk, IfSome};
ghost use Rattle.mk_base.specs.Lists.{same_text};
ghost use Rattle.mk_base.specs.Texts.{text_of};
ghost use Rattle.mk_message.specs.Messages.{message_of};
ghost use Rattle.mk_message.specs.Written.{success_text};
ghost use Rattle.mk_plan.specs.Messages.{is_message_in_range};
ghost use Rattle.mk_message_plain.specs.Plain.{IsWritten};
ghost use Rattle.mk_message_plain.specs.inner.Members.{IsContent};

use crate::entities::entities;
use crate::known::Known;
use crate::signs::{before, behind, signed, unsigned};
use mk_base::{Json, Mem, Members};
use mk_plan::Message;
use std::alloc::Global;

/// The message of a payload that is written plainly: `[1,ID,CONTENT]` without a space, where the content is `null`, a
/// whole number, `{}`, or an object of objects of whole numbers, none of these empty. Its names rise in byte order, are
/// ASCII, not empty, and need no escape; a number has at most 18 digits. `None` says nothing of any other payload.
pub fn plain(alloc: Global, known: &mut Known, payload: &[u8]) -> Result<Option<Message>, Mem>
    ensures message { IfOk result (λ o. IfSome o (λ m. message_of payload.now ≡ Ok m)) }
    ensures in_range { IfOk result (λ o. IfSome o (λ m. is_message_in_range m ≡ true)) }
    ensures written { IfOk result (λ o. IfSome o (λ m. IsWritten m payload.now)) }
{
    let Some((id, text)) = id_and_content(payload) else {
        return Ok(None);
    };
    match content_of(alloc, known, text)? {
        Some(content) => Ok(Some(Message::Success { id, content })),
        None => Ok(None),
    }
}

// The id and the text of the content.
fn id_and_content(payload: &[u8]) -> Option<(u64, &[u8])>
    ensures text { IfSome result (λ p. payload.now ≡ success_text p.0 p.1.now) }
    ensures small { IfSome result (λ p. p.0 < 10 ^ 18) }
{
    let kind = behind(payload, b'[')?;
    let comma = behind(kind, b'1')?;
    let digits = behind(comma, b',')?;
    let (id, second_comma) = unsigned(digits)?;
    let rest = behind(second_comma, b',')?;
    let content = before(rest, b']')?;
    Some((id, content))
}

fn content_of(alloc: Global, known: &mut Known, text: &[u8]) -> Result<Option<Json>, Mem>
    ensures text { IfOk result (λ o. IfSome o (λ t. text.now ≡ text_of t)) }
    ensures content { IfOk result (λ o. IfSome o (IsContent 2)) }
{
    match behind(text, b'{') {
        Some(rest) => object_of(alloc, known, rest),
        None => Ok(single_of(text)),
    }
}

fn object_of(alloc: Global, known: &mut Known, rest: &[u8]) -> Result<Option<Json>, Mem>
    ensures text { IfOk result (λ o. IfSome o (λ t. 123 ∷ rest.now ≡ text_of t)) }
    ensures content { IfOk result (λ o. IfSome o (IsContent 2)) }
{
    if is_text(rest, b"}") {
        return Ok(Some(Json::Object(Members::new(alloc))));
    }
    match entities(alloc, known, rest)? {
        Some(members) => Ok(Some(Json::Object(members))),
        None => Ok(None),
    }
}

// `null` or a number.
fn single_of(text: &[u8]) -> Option<Json>
    ensures text { IfSome result (λ t. text.now ≡ text_of t) }
    ensures content { IfSome result (IsContent 2) }
{
    if is_text(text, b"null") {
        return Some(Json::Null);
    }
    let (number, rest) = signed(text)?;
    match rest {
        [] => Some(Json::Whole(number)),
        _ => None,
    }
}

fn is_text(text: &[u8], other: &[u8]) -> bool
    ensures { result ≡ same_text text.now other.now }
{
    text == other
}
