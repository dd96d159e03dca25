//! Records of two plans: the first part that differs is named.

use crate::said::is_said;
use mk_base::Mem;
use std::alloc::Global;
use std::test::Fail;

// The parts of a plan, as a record's lines, and others of each.
const PARTS: [(&str, &str); 6] = [
    ("run [1,100,2000000]\n", "run [1,50,2000000]\n"),
    (
        "sim [\"A-0\",\"time-based\",3,0,[]]\nsim [\"B-0\",\"time-based\",3,1,[]]\n",
        "sim [\"A-0\",\"time-based\",3,0,[]]\nsim [\"C-0\",\"time-based\",3,1,[]]\n",
    ),
    (
        "model [0,\"M\",[\"out\"],false]\nmodel [1,\"M\",[\"in\",\"other\"],false]\n",
        "model [0,\"M\",[\"out\"],false]\nmodel [1,\"M\",[\"in\",\"other\"],true]\n",
    ),
    (
        "entity [0,\"0\",[]]\nentity [1,\"0\",[]]\n",
        "entity [0,\"0\",[]]\nentity [1,\"0\",[0]]\n",
    ),
    (
        "conn [0,\"out\",1,\"in\",\"plain\",true,false,[]]\n",
        "conn [0,\"out\",1,\"other\",\"plain\",true,false,[]]\n",
    ),
    ("async [0,1]\n", ""),
];

const MESSAGES: &str =
    "got [0,[1,3,1]]\ngot [0,[1,4,{\"0\":{\"out\":5}}]]\ngot [1,[1,3,1]]\nend 3\n";

// The record of a plan whose first so many parts are these, and the others those.
fn record_of(alloc: Global, same: usize) -> Result<Vec<u8>, Mem> {
    let mut text = Vec::from_slice(alloc, b"mosaikrun 1\n")?;
    for (number, (this, that)) in PARTS.iter().enumerate() {
        let part = if number < same { this } else { that };
        text.extend_from_slice(part.as_bytes())?;
    }
    text.extend_from_slice(MESSAGES.as_bytes())?;
    Ok(text)
}

// What is said of two plans whose first so many parts, and no others, are the same.
const LINES: [&str; 7] = [
    "mosaikrun: run 10: record of another plan (1)\n",
    "mosaikrun: run 10: record of another plan (2)\n",
    "mosaikrun: run 10: record of another plan (3)\n",
    "mosaikrun: run 10: record of another plan (4)\n",
    "mosaikrun: run 10: record of another plan (5)\n",
    "mosaikrun: run 10: record of another plan (6)\n",
    "equal\n",
];

#[test]
fn the_first_part_that_differs_is_named(rt: HostRuntime) -> Result<(), Fail> {
    let alloc = rt.alloc();
    let one = record_of(alloc, 6)?;
    for (same, wanted) in LINES.iter().enumerate() {
        let other = record_of(alloc, same)?;
        assert!(rt; is_said(alloc, one.as_slice(), other.as_slice(), wanted)?);
    }
    Ok(())
}
