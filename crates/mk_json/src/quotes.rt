//! A text in quotes.
ghost use Rattle.std.specs.Prelude.{◌≡◌, true, ◌++◌, OnOk, OnErr};
ghost use Rattle.std.specs.List.{list_all};
ghost use Rattle.std.specs.Str.{IsUtf8};
ghost use Rattle.mk_base.specs.Texts.{quoted};
ghost use Rattle.mk_json.specs.inner.Quotes.{stands_so};

use json::Writer;
use mk_base::{Mem, Text};
use std::alloc::Global;

/// Appends a text in quotes with the shortest escapes (RFC 8259, section 7). At `Mem` `out` is as before.
pub fn put_text(alloc: Global, out: &mut Vec<u8>, text: &Text) -> Result<(), Mem>
    ensures ok { OnOk result (out.new.items ≡ out.old.items ++ quoted text.now) }
    ensures err { OnErr result (out.new.items ≡ out.old.items) }
    ensures utf8 { IsUtf8 text.now }
{
    if all_stand_so(text.bytes()) {
        put_as_it_is(out, text.bytes())
    } else {
        put_escaped(alloc, out, text)
    }
}

// Whether nothing in the text needs an escape.
fn all_stand_so(text: &[u8]) -> bool
    ensures { result ≡ list_all stands_so text.now }
{
    text.iter().all(|byte| stands_so(*byte))
}

// Whether the byte stands as it is within quotes.
fn stands_so(byte: u8) -> bool
    ensures { result ≡ stands_so byte }
{
    byte >= 32 && byte != b'"' && byte != b'\\'
}

// Appends a text in which nothing needs an escape.
fn put_as_it_is(out: &mut Vec<u8>, text: &[u8]) -> Result<(), Mem>
    requires { list_all stands_so text.now ≡ true }
    ensures ok { OnOk result (out.new.items ≡ out.old.items ++ quoted text.now) }
    ensures err { OnErr result (out.new.items ≡ out.old.items) }
{
    out.reserve(text.len() + 2)?;
    out.push_reserved(b'"');
    if out.extend_from_slice(text).is_err() {
        unreachable!();
    }
    out.push_reserved(b'"');
    Ok(())
}

// Appends a text that needs escapes. The writer gets a room of its own: it fills what it is given
// with zeros far ahead of what it writes.
fn put_escaped(alloc: Global, out: &mut Vec<u8>, text: &Text) -> Result<(), Mem>
    ensures ok { OnOk result (out.new.items ≡ out.old.items ++ quoted text.now) }
    ensures err { OnErr result (out.new.items ≡ out.old.items) }
{
    let mut writer = Writer::new(Vec::new(alloc));
    writer.string(text.as_str())?;
    out.extend_from_slice(writer.into_inner().as_slice())?;
    Ok(())
}
