//! Values of each type.
use mk_base::Json;
use mk_scenario_toml::read_toml;
use std::alloc::Global;

const DOCUMENT: &[u8] = b"one = 1
hex = 0x10
least = -9223372036854775808
yes = true
text = 'a\\b'
half = 1.0
none = nan
day = 1979-05-27
list = [[1, 2], [], {a.b = 3, c = 4}]
[table]
a.b = 3
[table.c]
";

// A member's name, and what it is: a word; its number, or how many parts it has; and its text.
type Row = (&'static str, &'static str, i128, &'static str);

const MEMBERS: [Row; 10] = [
    ("one", "whole", 1, ""),
    ("hex", "whole", 16, ""),
    ("least", "whole", -9223372036854775808, ""),
    ("half", "odd", 0, ""),
    ("none", "odd", 0, ""),
    ("day", "odd", 0, ""),
    ("yes", "true", 0, ""),
    ("text", "text", 0, "a\\b"),
    ("list", "list", 3, ""),
    ("table", "object", 2, ""),
];

fn told(value: &Json) -> (&str, i128, &str) {
    match value {
        Json::Null => ("null", 0, ""),
        Json::Bool(value) => (if *value { "true" } else { "false" }, 0, ""),
        Json::Whole(number) => ("whole", *number, ""),
        Json::Odd => ("odd", 0, ""),
        Json::Text(text) => ("text", 0, text.as_str()),
        Json::List(items) => ("list", items.len() as i128, ""),
        Json::Object(members) => ("object", members.len() as i128, ""),
    }
}

fn is_member(document: &Json, row: &Row) -> bool {
    match document.member(row.0) {
        Some(value) => told(value) == (row.1, row.2, row.3),
        None => false,
    }
}

// How many members are as they are to be, up to the first that isn't.
fn count_members(document: &Json) -> usize {
    for (place, row) in MEMBERS.iter().enumerate() {
        if !is_member(document, row) {
            return place;
        }
    }
    MEMBERS.len()
}

fn count_read(alloc: Global) -> usize {
    match read_toml(alloc, DOCUMENT) {
        Ok(document) => count_members(&document),
        Err(_) => 1000,
    }
}

#[test]
fn values_of_each_type_are_read(rt: HostRuntime) {
    assert_eq!(rt; count_read(rt.alloc()), MEMBERS.len());
}
