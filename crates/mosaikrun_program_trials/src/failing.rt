//! Calls of the program in which one call of the folder or of an output fails.

use crate::calls::{Comes, status_over};
use crate::files::{RECORD, SAVED, SUM_RECORD, SUM_STEPS, THREE_STEPS, WITHIN};
use crate::fleets::answering;
use mk_base::{List, Mem};
use mk_fakes::{MemFolder, MemSink};
use mk_local::Registry;
use mosaikrun_samples::COUNTER;
use std::alloc::Global;
use std::sync::Wait;

// Which of the three fails.
#[derive(Clone, Copy, PartialEq, Eq)]
enum Fails {
    Folder,
    Out,
    Err,
}

// Words, the one call that fails, and what comes of it.
struct Row {
    words: &'static [&'static str],
    fails: Fails,
    call: u64,
    comes: Comes,
}

const RUN: &[&str] = &["run", "s", "--record", "k"];

const REPLAY: &[&str] = &["replay", "b"];

const RESUME: &[&str] = &["resume", "w", "r", "--record", "k"];

const FOLDER: &str = "mosaikrun: outside: folder\n";

const OUTPUT: &str = "mosaikrun: outside: output\n";

// Each call that `run`, `replay` and `resume` make in turn, then mostly the first that they don't make; and those of a
// line that is told where there is no such file.
const ROWS: &[Row] = &[
    Row {
        words: RUN,
        fails: Fails::Folder,
        call: 0,
        comes: Comes {
            status: 6,
            err: FOLDER,
            out: "",
            saved: None,
        },
    },
    Row {
        words: RUN,
        fails: Fails::Folder,
        call: 1,
        comes: Comes {
            status: 6,
            err: FOLDER,
            out: "",
            saved: None,
        },
    },
    Row {
        words: RUN,
        fails: Fails::Folder,
        call: 2,
        comes: Comes {
            status: 0,
            err: "",
            out: THREE_STEPS,
            saved: Some(SAVED),
        },
    },
    Row {
        words: RUN,
        fails: Fails::Out,
        call: 0,
        comes: Comes {
            status: 6,
            err: OUTPUT,
            out: "",
            saved: Some(SAVED),
        },
    },
    Row {
        words: RUN,
        fails: Fails::Out,
        call: 1,
        comes: Comes {
            status: 0,
            err: "",
            out: THREE_STEPS,
            saved: Some(SAVED),
        },
    },
    Row {
        words: RUN,
        fails: Fails::Err,
        call: 0,
        comes: Comes {
            status: 0,
            err: "",
            out: THREE_STEPS,
            saved: Some(SAVED),
        },
    },
    Row {
        words: REPLAY,
        fails: Fails::Folder,
        call: 0,
        comes: Comes {
            status: 6,
            err: FOLDER,
            out: "",
            saved: None,
        },
    },
    Row {
        words: REPLAY,
        fails: Fails::Folder,
        call: 1,
        comes: Comes {
            status: 0,
            err: "",
            out: SUM_STEPS,
            saved: None,
        },
    },
    Row {
        words: REPLAY,
        fails: Fails::Out,
        call: 0,
        comes: Comes {
            status: 6,
            err: OUTPUT,
            out: "",
            saved: None,
        },
    },
    Row {
        words: REPLAY,
        fails: Fails::Out,
        call: 1,
        comes: Comes {
            status: 0,
            err: "",
            out: SUM_STEPS,
            saved: None,
        },
    },
    Row {
        words: REPLAY,
        fails: Fails::Err,
        call: 0,
        comes: Comes {
            status: 0,
            err: "",
            out: SUM_STEPS,
            saved: None,
        },
    },
    Row {
        words: RESUME,
        fails: Fails::Folder,
        call: 0,
        comes: Comes {
            status: 6,
            err: FOLDER,
            out: "",
            saved: None,
        },
    },
    Row {
        words: RESUME,
        fails: Fails::Folder,
        call: 1,
        comes: Comes {
            status: 6,
            err: FOLDER,
            out: "",
            saved: None,
        },
    },
    Row {
        words: RESUME,
        fails: Fails::Folder,
        call: 2,
        comes: Comes {
            status: 6,
            err: FOLDER,
            out: "",
            saved: None,
        },
    },
    Row {
        words: RESUME,
        fails: Fails::Folder,
        call: 3,
        comes: Comes {
            status: 0,
            err: "",
            out: THREE_STEPS,
            saved: Some(SAVED),
        },
    },
    Row {
        words: RESUME,
        fails: Fails::Out,
        call: 0,
        comes: Comes {
            status: 6,
            err: OUTPUT,
            out: "",
            saved: Some(SAVED),
        },
    },
    Row {
        words: &["run", "none.toml"],
        fails: Fails::Err,
        call: 0,
        comes: Comes {
            status: 3,
            err: "",
            out: "",
            saved: None,
        },
    },
    Row {
        words: &["run", "none.toml"],
        fails: Fails::Err,
        call: 1,
        comes: Comes {
            status: 3,
            err: "mosaikrun: none.toml: no such file\n",
            out: "",
            saved: None,
        },
    },
];

// The number of the call that fails, if it is a call of this one.
fn calls(alloc: Global, row: &Row, fails: Fails) -> Result<List<u64>, Mem> {
    let mut calls = List::new(alloc);
    if row.fails == fails {
        calls.push(row.call)?;
    }
    Ok(calls)
}

// A folder with a counter over a link, one within the program, and two records.
fn folder_of(alloc: Global, row: &Row) -> Result<MemFolder, Mem> {
    let mut folder = MemFolder::new(alloc, calls(alloc, row, Fails::Folder)?);
    folder.add("s", COUNTER.as_bytes())?;
    folder.add("w", WITHIN.as_bytes())?;
    folder.add("r", RECORD.as_bytes())?;
    folder.add("b", SUM_RECORD.as_bytes())?;
    Ok(folder)
}

fn sink_of(alloc: Global, row: &Row, fails: Fails) -> Result<MemSink, Mem> {
    Ok(MemSink::new(alloc, calls(alloc, row, fails)?))
}

// The status of the call, over a fleet on which the counter replies.
fn status_of<R: Wait>(
    rt: &R,
    alloc: Global,
    row: &Row,
    folder: &mut MemFolder,
    kinds: &Registry,
    out: &mut MemSink,
    err: &mut MemSink,
) -> Result<u8, Mem> {
    let mut fleet = answering(alloc, List::new(alloc))?;
    status_over(rt, alloc, row.words, folder, &mut fleet, kinds, out, err)
}

fn is_right<R: Wait>(rt: &R, alloc: Global, kinds: &Registry, row: &Row) -> Result<bool, Mem> {
    let mut folder = folder_of(alloc, row)?;
    let mut out = sink_of(alloc, row, Fails::Out)?;
    let mut err = sink_of(alloc, row, Fails::Err)?;
    let status = status_of(rt, alloc, row, &mut folder, kinds, &mut out, &mut err)?;
    Ok(row.comes.is_told(status, &folder, &out, &err))
}

/// The first row that isn't as it says.
pub fn first_wrong<R: Wait>(rt: &R, alloc: Global, kinds: &Registry) -> Result<Option<usize>, Mem> {
    for place in 0..ROWS.len() {
        if !is_right(rt, alloc, kinds, &ROWS[place])? {
            return Ok(Some(place));
        }
    }
    Ok(None)
}
