//! From a payload to its message.
ghost use Rattle.std.specs.Prelude.{◌≡◌, ℕ, true, Ok, Err, None, Some, IfOk};
ghost use Rattle.mk_base.specs.Trees as trees;
ghost use Rattle.mk_message.specs.Messages.{three_of, three_in, kind_in, id_in, request_in, content_in, message_in, message_of};
ghost use Rattle.mk_message.specs.inner.Asks.{ask_in, ask_named};
ghost use Rattle.mk_plan.specs.Messages.{is_message_in_range};

use mk_base::{Json, List, Mem, Text};
use mk_json::{JsonFault, Scratch, read_json_in};
use mk_plan::Message;
use std::alloc::Global;
use thiserror::Error;

/// Why a payload has no message: the number of the first test that it fails, or want of memory.
///
/// 1: it is JSON; 2: a list with three items; 3: of these the first is one of the numbers 0, 1 and 2;
/// 4: the second is a whole number, not below 0 and below 2^63; 5: the third is a request's content
/// (`[function, [positional], {keyword}]`), any value for a success, or a text for a failure (the
/// mosaik 3 documentation's low-level API).
#[derive(Debug, Drop, Error)]
pub enum ReadFault {
    #[error("no message")]
    NotAMessage(u8),
    #[error("out of memory")]
    Mem,
}

impl From<Mem> for ReadFault {
    ghost use Rattle.mk_message.specs.declared.reading.ReadFault.TheVariants as fault;

    ghost from_gives = { λ _ e. e ≡ fault.Mem };

    fn from(_e: Mem) -> ReadFault {
        ReadFault::Mem
    }
}

// What kind of message it is.
#[derive(Clone, Copy, Debug)]
pub enum Kind {
    Request,
    Success,
    Failure,
}

/// The message that a payload has, or the first of the five tests that it fails (`ReadFault`).
pub fn read(alloc: Global, payload: &[u8]) -> Result<Message, ReadFault>
    ensures ok { IfOk result (λ m. message_of payload.now ≡ Ok m) }
    ensures refused { (n : ℕ) → result ≡ Err (ReadFault.NotAMessage n)
        → message_of payload.now ≡ Err n }
    ensures in_range { IfOk result (λ m. is_message_in_range m ≡ true) }
{
    let mut scratch = Scratch::new(alloc);
    read_in(alloc, &mut scratch, payload)
}

/// As `read`, with room that is kept from payload to payload.
pub fn read_in(alloc: Global, scratch: &mut Scratch, payload: &[u8]) -> Result<Message, ReadFault>
    ensures ok { IfOk result (λ m. message_of payload.now ≡ Ok m) }
    ensures refused { (n : ℕ) → result ≡ Err (ReadFault.NotAMessage n)
        → message_of payload.now ≡ Err n }
    ensures in_range { IfOk result (λ m. is_message_in_range m ≡ true) }
{
    match read_json_in(alloc, scratch, payload) {
        Ok(tree) => told(take_tree(tree)),
        Err(JsonFault::NotJson) => Err(ReadFault::NotAMessage(1)),
        Err(JsonFault::Mem) => Err(ReadFault::Mem),
    }
}

/// The message that a tree has, or the first of the tests 2 to 5 that it fails.
pub fn read_tree(alloc: Global, tree: &Json) -> Result<Message, ReadFault>
    ensures ok { IfOk result (λ m. message_in tree.now ≡ Ok m) }
    ensures refused { (n : ℕ) → result ≡ Err (ReadFault.NotAMessage n)
        → message_in tree.now ≡ Err n }
    ensures in_range { IfOk result
        (λ m. trees.is_in_range tree.now ≡ true → is_message_in_range m ≡ true) }
{
    let tree = tree.copy(alloc)?;
    told(take_tree(tree))
}

fn told(read: Result<Message, u8>) -> Result<Message, ReadFault>
    ensures ok { IfOk result (λ m. read ≡ Ok m) }
    ensures refused { (n : ℕ) → result ≡ Err (ReadFault.NotAMessage n) → read ≡ Err n }
{
    match read {
        Ok(message) => Ok(message),
        Err(test) => Err(ReadFault::NotAMessage(test)),
    }
}

/// The message that a tree has, with the tree's parts moved into it, or the number of the first of
/// the tests 2 to 5 that the tree fails.
pub fn take_tree(tree: Json) -> Result<Message, u8>
    ensures value { result ≡ message_in tree }
    ensures in_range { IfOk result
        (λ m. trees.is_in_range tree ≡ true → is_message_in_range m ≡ true) }
{
    message_of_tree(tree)
}

fn message_of_tree(tree: Json) -> Result<Message, u8>
    ensures { result ≡ message_in tree }
{
    let Some((first, second, content)) = three_in(tree) else {
        return Err(2);
    };
    let Some(kind) = kind_of(&first) else {
        return Err(3);
    };
    let Some(id) = id_of(&second) else {
        return Err(4);
    };
    match content_of(kind, id, content) {
        Some(message) => Ok(message),
        None => Err(5),
    }
}

fn three_in(tree: Json) -> Option<(Json, Json, Json)>
    ensures { result ≡ three_in tree }
{
    match tree {
        Json::List(parts) => three_of(parts),
        _ => None,
    }
}

fn three_of(parts: List<Json>) -> Option<(Json, Json, Json)>
    ensures { result ≡ three_of parts }
{
    if parts.len() != 3 {
        return None;
    }
    let mut left = parts;
    let third = left.pop()?;
    let second = left.pop()?;
    let first = left.pop()?;
    Some((first, second, third))
}

fn kind_of(tree: &Json) -> Option<Kind>
    ensures { result ≡ kind_in tree.now }
{
    match tree {
        Json::Whole(0) => Some(Kind::Request),
        Json::Whole(1) => Some(Kind::Success),
        Json::Whole(2) => Some(Kind::Failure),
        _ => None,
    }
}

fn id_of(tree: &Json) -> Option<u64>
    ensures { result ≡ id_in tree.now }
{
    match tree {
        Json::Whole(n) if *n >= 0 && *n < 9223372036854775808 => Some(*n as u64),
        _ => None,
    }
}

fn content_of(kind: Kind, id: u64, content: Json) -> Option<Message>
    ensures { result ≡ content_in kind id content }
{
    match kind {
        Kind::Request => request_of(id, content),
        Kind::Success => Some(Message::Success { id, content }),
        Kind::Failure => match content {
            Json::Text(text) => Some(Message::Failure { id, text }),
            _ => None,
        },
    }
}

fn request_of(id: u64, content: Json) -> Option<Message>
    ensures { result ≡ request_in id content }
{
    match three_in(content) {
        Some((name, args, named)) => ask_of(id, name, args, named),
        None => None,
    }
}

fn ask_of(id: u64, name: Json, args: Json, named: Json) -> Option<Message>
    ensures { result ≡ ask_in id name args named }
{
    match name {
        Json::Text(name) => ask_named(id, name, args, named),
        _ => None,
    }
}

fn ask_named(id: u64, name: Text, args: Json, named: Json) -> Option<Message>
    ensures { result ≡ ask_named id name args named }
{
    match args {
        Json::List(args) => {
            if named.is_object() {
                Some(Message::Ask {
                    id,
                    name,
                    args,
                    named,
                })
            } else {
                None
            }
        }
        _ => None,
    }
}
