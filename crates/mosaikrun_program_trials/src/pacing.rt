//! Calls of the program that run a scenario by a clock in memory.

use crate::calls::{Comes, status_by_clock};
use crate::files::{LATE, SAVED, THREE_STEPS, WITHIN};
use mk_base::{List, Mem};
use mk_fakes::{MemFolder, MemSink};
use mk_local::Registry;
use std::alloc::Global;
use std::sync::Wait;

// Words, by how many milliseconds the clock goes on at each look, and what comes of it.
struct Row {
    words: &'static [&'static str],
    tick: u64,
    comes: Comes,
}

const ROWS: &[Row] = &[
    Row {
        words: &["paced", "s", "1000", "--strict", "0", "--record", "k"],
        tick: 0,
        comes: Comes {
            status: 0,
            err: "",
            out: THREE_STEPS,
            saved: Some(SAVED),
        },
    },
    Row {
        words: &["paced", "--record=k", "s", "1000", "--strict=0"],
        tick: 7,
        comes: Comes {
            status: 5,
            err: "mosaikrun: run 12: A-0 step at 0 late by 7 ms, allowed 0\n",
            out: "",
            saved: Some(LATE),
        },
    },
    Row {
        words: &["paced", "s", "1000", "--strict", "7"],
        tick: 7,
        comes: Comes {
            status: 0,
            err: "",
            out: THREE_STEPS,
            saved: None,
        },
    },
    Row {
        words: &["paced", "s", "1000"],
        tick: 9000,
        comes: Comes {
            status: 0,
            err: "",
            out: THREE_STEPS,
            saved: None,
        },
    },
];

fn folder_of(alloc: Global) -> Result<MemFolder, Mem> {
    let mut folder = MemFolder::new(alloc, List::new(alloc));
    folder.add("s", WITHIN.as_bytes())?;
    Ok(folder)
}

fn is_right<R: Wait>(rt: &R, alloc: Global, kinds: &Registry, row: &Row) -> Result<bool, Mem> {
    let mut folder = folder_of(alloc)?;
    let mut out = MemSink::new(alloc, List::new(alloc));
    let mut err = MemSink::new(alloc, List::new(alloc));
    let status = status_by_clock(
        rt,
        alloc,
        row.words,
        &mut folder,
        row.tick,
        kinds,
        &mut out,
        &mut err,
    )?;
    Ok(row.comes.is_told(status, &folder, &out, &err))
}

/// The first row that isn't as it says.
pub fn first_wrong_pace<R: Wait>(
    rt: &R,
    alloc: Global,
    kinds: &Registry,
) -> Result<Option<usize>, Mem> {
    for place in 0..ROWS.len() {
        if !is_right(rt, alloc, kinds, &ROWS[place])? {
            return Ok(Some(place));
        }
    }
    Ok(None)
}
