//! Bytes read, trees written, and both again.
ghost use Rattle.std.specs.Prelude.{◌≡◌, true};
ghost use Rattle.mk_base.specs.Trees.{is_in_range};

use mk_base::{Json, Mem, Text};
use mk_json::{DatumFault, JsonFault, Scratch, datum, put_json, put_text, read_json, read_json_in};
use std::alloc::Global;

// Whether a tree is written as this.
fn is_written(alloc: Global, tree: &Json, want: &str) -> bool
    requires { is_in_range tree.now ≡ true }
{
    let mut out = Vec::new(alloc);
    match put_json(alloc, &mut out, tree) {
        Ok(()) => out.as_slice() == want.as_bytes(),
        Err(_) => false,
    }
}

// Whether what the bytes are read as is written as this.
fn is_again(alloc: Global, scratch: &mut Scratch, bytes: &[u8], want: &str) -> bool {
    match read_json_in(alloc, scratch, bytes) {
        Ok(tree) => is_written(alloc, &tree, want),
        Err(JsonFault::NotJson) => want == "no JSON",
        Err(JsonFault::Mem) => false,
    }
}

// Whether the datum of a tree is this text, or why it is none.
fn is_datum_of(alloc: Global, tree: &Json, want: &str) -> bool
    requires { is_in_range tree.now ≡ true }
{
    match datum(alloc, tree) {
        Ok(datum) => datum.bytes() == want.as_bytes(),
        Err(DatumFault::NotWhole) => want == "not whole",
        Err(DatumFault::TooDeep) => want == "too deep",
        Err(DatumFault::Mem) => false,
    }
}

fn is_datum(alloc: Global, bytes: &[u8], want: &str) -> bool {
    match read_json(alloc, bytes) {
        Ok(tree) => is_datum_of(alloc, &tree, want),
        Err(_) => want == "no JSON",
    }
}

// 34 names, each below the one before it, and the same in byte order.
const FALLING: &[u8] =
    b"{\"z\":1,\"y\":1,\"x\":1,\"w\":1,\"v\":1,\"u\":1,\"t\":1,\"s\":1,\"r\":1,\"q\":1,\"p\":1,\"o\":1,\"n\":1,\"m\":1,\"l\":1,\"k\":1,\"j\":1,\"i\":1,\"h\":1,\"g\":1,\"f\":1,\"e\":1,\"d\":1,\"c\":1,\"b\":1,\"a\":1,\"H\":1,\"G\":1,\"F\":1,\"E\":1,\"D\":1,\"C\":1,\"B\":1,\"A\":1}";

const RISING: &str =
    "{\"A\":1,\"B\":1,\"C\":1,\"D\":1,\"E\":1,\"F\":1,\"G\":1,\"H\":1,\"a\":1,\"b\":1,\"c\":1,\"d\":1,\"e\":1,\"f\":1,\"g\":1,\"h\":1,\"i\":1,\"j\":1,\"k\":1,\"l\":1,\"m\":1,\"n\":1,\"o\":1,\"p\":1,\"q\":1,\"r\":1,\"s\":1,\"t\":1,\"u\":1,\"v\":1,\"w\":1,\"x\":1,\"y\":1,\"z\":1}";

const TREES: [(&[u8], &str); 17] = [
    (
        b" {\"b\":1, \"a\":[true,null,-5]}\n",
        "{\"a\":[true,null,-5],\"b\":1}",
    ),
    (b"{\"a\":1,\"a\":2}", "{\"a\":2}"),
    (b"{\"b\":1,\"a\":2,\"b\":{}}", "{\"a\":2,\"b\":{}}"),
    (FALLING, RISING),
    (b"[1.5,1e2,-0,18446744073709551616]", "[0.5,0.5,0.5,0.5]"),
    (
        b"[18446744073709551615,-9223372036854775808]",
        "[18446744073709551615,-9223372036854775808]",
    ),
    (b"-9223372036854775809", "0.5"),
    (
        b"\"\\ud83d\\ude00\\u0001\\/\\\"\"",
        "\"\u{1f600}\\u0001/\\\"\"",
    ),
    (b"[1", "no JSON"),
    (b"01", "no JSON"),
    (b"1e400", "no JSON"),
    (b"\"\\ud800\"", "no JSON"),
    (b"\xef\xbb\xbf1", "no JSON"),
    (b"[1] x", "no JSON"),
    (b"\"\xff\"", "no JSON"),
    (b"", "no JSON"),
    (b"\"a\tb\"", "no JSON"),
];

// 101 lists in one another.
const DEEP: &[u8] =
    b"[[[[[[[[[[[[[[[[[[[[[[[[[[[[[[[[[[[[[[[[[[[[[[[[[[[[[[[[[[[[[[[[[[[[[[[[[[[[[[[[[[[[[[[[[[[[[[[[[[[[[]]]]]]]]]]]]]]]]]]]]]]]]]]]]]]]]]]]]]]]]]]]]]]]]]]]]]]]]]]]]]]]]]]]]]]]]]]]]]]]]]]]]]]]]]]]]]]]]]]]]]";

const DATA: [(&[u8], &str); 9] = [
    (
        b"{\"b\":1,\"a\":[true,null]}",
        "{\"a\":[true,null],\"b\":1}",
    ),
    (b"18446744073709551615", "18446744073709551615"),
    (b"1.5", "not whole"),
    (b"{\"a\":1e2}", "not whole"),
    (b"1e2", "not whole"),
    (b"-0", "not whole"),
    (b"18446744073709551616", "not whole"),
    (b"[1", "no JSON"),
    (DEEP, "too deep"),
];

// How many are read and written again so, up to the first that isn't.
fn trees_again(alloc: Global) -> usize {
    let mut scratch = Scratch::new(alloc);
    for (place, (bytes, want)) in TREES.iter().enumerate() {
        if !is_again(alloc, &mut scratch, bytes, want) {
            return place;
        }
    }
    TREES.len()
}

fn data_again(alloc: Global) -> usize {
    for (place, (bytes, want)) in DATA.iter().enumerate() {
        if !is_datum(alloc, bytes, want) {
            return place;
        }
    }
    DATA.len()
}

#[test]
fn bytes_are_read_and_written_again(rt: HostRuntime) {
    assert_eq!(rt; trees_again(rt.alloc()), TREES.len());
}

#[test]
fn whole_numbers_and_what_has_them_are_data(rt: HostRuntime) {
    assert_eq!(rt; data_again(rt.alloc()), DATA.len());
}

const QUOTED: &[u8] = b"=\"a\\\"\\\\\\n\\u0001\xf0\x9f\x98\x80\"";

fn quoted(alloc: Global, text: &Text) -> Result<Vec<u8>, Mem> {
    let mut out = Vec::from_slice(alloc, b"=")?;
    put_text(alloc, &mut out, text)?;
    Ok(out)
}

fn is_quoted(alloc: Global, text: &Text) -> bool {
    match quoted(alloc, text) {
        Ok(out) => out.as_slice() == QUOTED,
        Err(_) => false,
    }
}

fn is_text_written(alloc: Global) -> bool {
    match Text::of(alloc, "a\"\\\n\u{1}\u{1f600}") {
        Ok(text) => is_quoted(alloc, &text),
        Err(_) => false,
    }
}

#[test]
fn a_text_is_written_between_quotes(rt: HostRuntime) {
    assert!(rt; is_text_written(rt.alloc()));
}
