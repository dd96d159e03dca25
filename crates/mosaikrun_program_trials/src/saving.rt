//! A run that saves its record, and the replay of what it saved.

use crate::calls::status_of;
use crate::files::{THREE_STEPS, WITHIN};
use mk_base::Mem;
use mk_fakes::{PlainFolder, PlainSink};
use mk_local::Registry;
use std::alloc::Global;
use std::sync::Wait;

// Whether the call with these words prints the three steps, and says nothing.
fn prints_three_steps<R: Wait>(
    rt: &R,
    alloc: Global,
    kinds: &Registry,
    folder: &mut PlainFolder,
    words: &[&str],
) -> Result<bool, Mem> {
    let mut out = PlainSink::new(alloc);
    let mut err = PlainSink::new(alloc);
    let status = status_of(rt, alloc, words, folder, kinds, &mut out, &mut err)?;
    Ok(status == 0 && out.bytes() == THREE_STEPS.as_bytes() && err.bytes() == b"".as_slice())
}

/// Whether the counter is run, and the record that this saves replayed.
pub fn is_saved_and_replayed<R: Wait>(
    rt: &R,
    alloc: Global,
    kinds: &Registry,
) -> Result<bool, Mem> {
    let mut folder = PlainFolder::new(alloc);
    folder.add("s", WITHIN.as_bytes())?;
    let run = prints_three_steps(
        rt,
        alloc,
        kinds,
        &mut folder,
        &["run", "s", "--record", "k"],
    )?;
    let replayed = prints_three_steps(rt, alloc, kinds, &mut folder, &["replay", "k"])?;
    Ok(run && replayed)
}
