//! A report that is put to an output in pieces of each size.

use crate::calls::status_of;
use crate::files::{RECORD, THREE_STEPS};
use mk_base::Mem;
use mk_fakes::{PlainFolder, PlainSink};
use mk_local::Registry;
use mk_outside::{Sink, Wrote};
use std::alloc::Global;
use std::sync::Wait;

// A sink that takes at most so many bytes at a time, and at least one.
#[derive(Drop)]
struct BitingSink {
    most: usize,
    taken: Vec<u8>,
}

impl Sink for BitingSink {
    ghost use Rattle.std.specs.Prelude.{Some, ◌-◌, ◌^◌};

    ghost faults = { λ _. 0 };

    ghost shortages = { λ _. 2 ^ 64 - 1 };

    ghost written = { λ k. Some k.taken.items };

    fn put(&mut self, bytes: &[u8]) -> Wrote {
        let count = bytes.len().min(self.most.max(1));
        match self.taken.extend_from_slice(&bytes[..count]) {
            Ok(()) => Wrote::Took(count),
            Err(_) => Wrote::Mem,
        }
    }
}

// Whether the report is whole where so many bytes of it are taken at a time.
fn is_whole<R: Wait>(
    rt: &R,
    alloc: Global,
    folder: &mut PlainFolder,
    most: usize,
) -> Result<bool, Mem> {
    let kinds = Registry::new(alloc);
    let mut err = PlainSink::new(alloc);
    let mut out = BitingSink {
        most,
        taken: Vec::new(alloc),
    };
    let status = status_of(
        rt,
        alloc,
        &["replay", "r"],
        folder,
        &kinds,
        &mut out,
        &mut err,
    )?;
    Ok(status == 0 && out.taken.as_slice() == THREE_STEPS.as_bytes())
}

// The first size at which it isn't.
fn first_wrong<R: Wait>(rt: &R, alloc: Global) -> Result<Option<usize>, Mem> {
    let mut folder = PlainFolder::new(alloc);
    folder.add("r", RECORD.as_bytes())?;
    for most in 1..=THREE_STEPS.len() {
        if !is_whole(rt, alloc, &mut folder, most)? {
            return Ok(Some(most));
        }
    }
    Ok(None)
}

#[test]
fn a_report_is_written_in_pieces_of_each_size(rt: HostRuntime) {
    assert_eq!(rt; first_wrong(&rt, rt.alloc()), Ok(None));
}
