//! The fields of a record's line, each put behind what was written.
ghost use Rattle.std.specs.Prelude.{◌≡◌, ◌++◌, map, true, IfSome, OnOk};
ghost use Rattle.std.specs.Fmt.{decimal, signed_decimal};
ghost use Rattle.std.specs.List.{list_all};
ghost use Rattle.std.specs.Str.{is_utf8};
ghost use Rattle.mk_base.specs.Data.{IsDatumText};
ghost use Rattle.mk_base.specs.Texts.{list_text, quoted};
ghost use Rattle.mk_base.specs.Names.{kind_name};
ghost use Rattle.mk_record_read.specs.Texts.{bool_text, initial_text, via_text};
ghost use Rattle.mk_record_write.specs.inner.Commas.{comma_before};

use mk_base::{Datum, Mem, SimKind, Text, Via, put, put_signed, put_unsigned};
use mk_json::put_text;
use std::alloc::Global;

pub fn put_bool(out: &mut Vec<u8>, b: bool) -> Result<(), Mem>
    ensures { OnOk result (out.new.items ≡ out.old.items ++ bool_text b) }
{
    if b {
        put(out, "true")
    } else {
        put(out, "false")
    }
}

// The type of a simulator.
pub fn put_kind(out: &mut Vec<u8>, kind: SimKind) -> Result<(), Mem>
    ensures { OnOk result (out.new.items ≡ out.old.items ++ quoted (kind_name kind)) }
{
    put(out, "\"")?;
    put(out, kind.name())?;
    put(out, "\"")
}

// How a connection delays.
pub fn put_via(out: &mut Vec<u8>, via: Via) -> Result<(), Mem>
    ensures { OnOk result (out.new.items ≡ out.old.items ++ via_text via) }
{
    match via {
        Via::Plain => put(out, "\"plain\""),
        Via::Weak => put(out, "\"weak\""),
        Via::Shift(width) => {
            put(out, "[\"shift\",")?;
            put_unsigned(out, width as u64)?;
            put(out, "]")
        }
    }
}

// An initial value, which is a datum by its type, or that there is none.
pub fn put_initial(out: &mut Vec<u8>, initial: &Option<Datum>) -> Result<(), Mem>
    ensures written { OnOk result (out.new.items ≡ out.old.items ++ initial_text initial.now) }
    ensures datum { IfSome initial.now IsDatumText }
{
    match initial {
        None => put(out, "[]"),
        Some(value) => {
            let bytes = value.bytes();
            put(out, "[")?;
            out.extend_from_slice(bytes)?;
            put(out, "]")
        }
    }
}

// The comma before the item at this place of a list.
fn put_comma(out: &mut Vec<u8>, place: usize) -> Result<(), Mem>
    ensures { OnOk result (out.new.items ≡ out.old.items ++ comma_before place) }
{
    if place > 0 { put(out, ",") } else { Ok(()) }
}

pub fn put_times(out: &mut Vec<u8>, times: &[i64]) -> Result<(), Mem>
    ensures { OnOk result
        (out.new.items ≡ out.old.items ++ list_text (map signed_decimal times.now)) }
{
    put(out, "[")?;
    for (place, time) in times.iter().enumerate() {
        put_comma(out, place)?;
        put_signed(out, *time)?;
    }
    put(out, "]")
}

pub fn put_numbers(out: &mut Vec<u8>, numbers: &[u32]) -> Result<(), Mem>
    ensures { OnOk result
        (out.new.items ≡ out.old.items ++ list_text (map decimal numbers.now)) }
{
    put(out, "[")?;
    for (place, number) in numbers.iter().enumerate() {
        put_comma(out, place)?;
        put_unsigned(out, *number as u64)?;
    }
    put(out, "]")
}

// A text in quotes, which is UTF-8 by its type.
pub fn put_quoted(alloc: Global, out: &mut Vec<u8>, text: &Text) -> Result<(), Mem>
    ensures written { OnOk result (out.new.items ≡ out.old.items ++ quoted text.now) }
    ensures utf8 { is_utf8 text.now ≡ true }
{
    let _ = text.bytes();
    put_text(alloc, out, text)
}

pub fn put_texts(alloc: Global, out: &mut Vec<u8>, texts: &[Text]) -> Result<(), Mem>
    ensures written { OnOk result (out.new.items ≡ out.old.items
        ++ list_text (map quoted texts.now)) }
    ensures utf8 { OnOk result (list_all is_utf8 texts.now ≡ true) }
{
    put(out, "[")?;
    for (place, text) in texts.iter().enumerate() {
        put_comma(out, place)?;
        put_quoted(alloc, out, text)?;
    }
    put(out, "]")
}
