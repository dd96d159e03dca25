//! From bytes to a tree, token by token.
ghost use Rattle.std.specs.Prelude.{◌≡◌, ◌≤◌, ◌<◌, length, true, Err, IfOk, OnOk, None, Some};
ghost use Rattle.json.specs.Json.{value, items, members};
ghost use Rattle.serde_json.specs.Data as values;
ghost use Rattle.serde_json.specs.Read as meant;
ghost use Rattle.mk_base.specs.Trees.{nesting, is_in_range};
ghost use Rattle.mk_json.specs.Parsed.{tree_of, items_of, members_of, parsed};

use crate::members::gathered;
use crate::number::number;
use crate::scratch::{Names, Scratch};
use json::{Invalid, Reader, Token};
use mk_base::{Json, List, Mem, Members, Text};
use std::alloc::Global;
use std::str;
use thiserror::Error;

// How deep lists and objects may stand in one another.
const MAX_DEPTH: usize = 127;

/// Why bytes have no tree, or want of memory.
#[derive(Debug, Drop, Error)]
pub enum JsonFault {
    #[error("no JSON")]
    NotJson,
    #[error("out of memory")]
    Mem,
}

impl From<Invalid> for JsonFault {
    ghost use Rattle.std.specs.Prelude.{◌≡◌};
    ghost use Rattle.mk_json.specs.declared.read.JsonFault.TheVariants as fault;

    ghost from_gives = { λ _ e. e ≡ fault.NotJson };

    fn from(_e: Invalid) -> JsonFault {
        JsonFault::NotJson
    }
}

impl From<Mem> for JsonFault {
    ghost use Rattle.std.specs.Prelude.{◌≡◌};
    ghost use Rattle.mk_json.specs.declared.read.JsonFault.TheVariants as fault;

    ghost from_gives = { λ _ e. e ≡ fault.Mem };

    fn from(_e: Mem) -> JsonFault {
        JsonFault::Mem
    }
}

/// The tree of a text of JSON (RFC 8259) in UTF-8, as `serde_json` reads it: of a name that stands
/// twice in an object the last value stays, and a number with a point or an exponent, `-0` and an
/// integer outside -2^63 to 2^64 - 1 are `Odd`. `NotJson` comes for any other bytes, and for a text
/// in which lists and objects stand in one another more than 127 deep, or a number is too great for
/// a float of 64 bits.
pub fn read_json(alloc: Global, bytes: &[u8]) -> Result<Json, JsonFault>
    ensures ok { IfOk result (λ t. parsed bytes.now ≡ Some t) }
    ensures refused { result ≡ Err JsonFault.NotJson → parsed bytes.now ≡ None }
    ensures in_range { IfOk result (λ t. is_in_range t ≡ true) }
    ensures nests { IfOk result (λ t. nesting t ≤ 127) }
{
    let mut scratch = Scratch::new(alloc);
    read_json_in(alloc, &mut scratch, bytes)
}

/// As `read_json`, with room that is kept from text to text.
pub fn read_json_in(alloc: Global, scratch: &mut Scratch, bytes: &[u8]) -> Result<Json, JsonFault>
    ensures ok { IfOk result (λ t. parsed bytes.now ≡ Some t) }
    ensures refused { result ≡ Err JsonFault.NotJson → parsed bytes.now ≡ None }
    ensures in_range { IfOk result (λ t. is_in_range t ≡ true) }
    ensures nests { IfOk result (λ t. nesting t ≤ 127) }
{
    match str::from_utf8(bytes) {
        Ok(text) => read_text(alloc, scratch, text),
        Err(_) => Err(JsonFault::NotJson),
    }
}

fn read_text(alloc: Global, scratch: &mut Scratch, text: &str) -> Result<Json, JsonFault>
    ensures ok { IfOk result
        (λ t. (d : values.Data) × (meant.read text.now ≡ Some d) × (t ≡ tree_of d)) }
    ensures refused { result ≡ Err JsonFault.NotJson → meant.read text.now ≡ None }
{
    let Ok(mut reader) = Reader::new(text, &mut scratch.parser) else {
        return Err(JsonFault::Mem);
    };
    let tree = read(alloc, &mut scratch.names, &mut reader, MAX_DEPTH)?;
    if reader.next().is_some() {
        return Err(JsonFault::NotJson);
    }
    Ok(tree)
}

#[cycle(read)]
#[inline(always)]
fn read(
    alloc: Global,
    names: &mut Names,
    reader: &mut Reader<'_>,
    depth: usize,
) -> Result<Json, JsonFault>
    ensures ok { IfOk result (λ t. (d : values.Data)
        × (meant.converted meant.of_json (value depth reader.old) ≡ Some (d, reader.new))
        × (t ≡ tree_of d)) }
    ensures shorter { OnOk result (length reader.new < length reader.old) }
    ensures refused { result ≡ Err JsonFault.NotJson
        → meant.converted meant.of_json (value depth reader.old) ≡ None }
{
    let token = reader.next().ok_or(JsonFault::NotJson)?;
    match token {
        Token::String(text) => Ok(Json::Text(Text::of(alloc, text)?)),
        Token::Number(text) => match number(text) {
            Some(tree) => Ok(tree),
            None => Err(JsonFault::NotJson),
        },
        Token::Bool(b) => Ok(Json::Bool(b)),
        Token::Null => Ok(Json::Null),
        Token::EndObject | Token::EndArray | Token::Key(_) | Token::Bad => {
            Err(JsonFault::NotJson)
        }
        Token::BeginArray => {
            if depth == 0 {
                return Err(JsonFault::NotJson);
            }
            Ok(Json::List(read_items(alloc, names, reader, depth - 1)?))
        }
        Token::BeginObject => {
            if depth == 0 {
                return Err(JsonFault::NotJson);
            }
            Ok(Json::Object(read_members(alloc, names, reader, depth - 1)?))
        }
    }
}

#[cycle(read)]
#[inline(never)]
fn read_items(
    alloc: Global,
    names: &mut Names,
    reader: &mut Reader<'_>,
    depth: usize,
) -> Result<List<Json>, JsonFault>
    ensures ok { IfOk result (λ ts. (ds : values.Items)
        × (meant.converted meant.of_items (items (value depth) (length reader.old) reader.old)
        ≡ Some (ds, reader.new)) × (ts ≡ items_of ds)) }
    ensures shorter { OnOk result (length reader.new < length reader.old) }
    ensures refused { result ≡ Err JsonFault.NotJson
        → meant.converted meant.of_items (items (value depth) (length reader.old) reader.old)
        ≡ None }
{
    let mut found = List::new(alloc);
    'items: while !reader.take_end_array() {
        let item = read(alloc, names, reader, depth)?;
        found.push(item)?;
    }
    found.trim();
    Ok(found)
}

#[cycle(read)]
#[inline(never)]
fn read_members(
    alloc: Global,
    names: &mut Names,
    reader: &mut Reader<'_>,
    depth: usize,
) -> Result<Members<Json>, JsonFault>
    ensures ok { IfOk result (λ ts. (ms : values.Members)
        × (meant.converted (λ ns. meant.of_members ns values.no_members)
        (members (value depth) (length reader.old) reader.old) ≡ Some (ms, reader.new))
        × (ts ≡ members_of ms)) }
    ensures shorter { OnOk result (length reader.new < length reader.old) }
    ensures refused { result ≡ Err JsonFault.NotJson
        → meant.converted (λ ns. meant.of_members ns values.no_members)
        (members (value depth) (length reader.old) reader.old) ≡ None }
{
    let mut found = List::with_room(alloc, 1)?;
    'members: while let Some(name) = reader.next_key()? {
        let key = names.text(alloc, name)?;
        let member = read(alloc, names, reader, depth)?;
        found.push((key, member))?;
    }
    Ok(gathered(alloc, found)?)
}
