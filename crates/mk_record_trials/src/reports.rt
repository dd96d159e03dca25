//! The report and the summary of a counter's replay.

use crate::common::{NINE_LINES, replayed};
use mk_base::Mem;
use mk_record_replay::Replayed;
use mk_record_report::{write_report, write_summary};
use std::alloc::Global;

fn is_text(text: Result<Vec<u8>, Mem>, want: &[u8]) -> bool {
    match text {
        Ok(text) => text.as_slice() == want,
        Err(_) => false,
    }
}

const REPORT: &[u8] = b"sim A-0\nstep 0:0 {}\nstep 1:0 {}\nstep 2:0 {}\nend 3\n";

const SUMMARY: &[u8] = b"A-0 3 0\ntotal 3 0\nlast step 2:0 {}\n";

fn are_written(alloc: Global, replayed: &Replayed) -> bool {
    is_text(
        write_report(alloc, &replayed.plan, &replayed.journal),
        REPORT,
    ) && is_text(
        write_summary(alloc, &replayed.plan, &replayed.journal),
        SUMMARY,
    )
}

fn are_right(alloc: Global) -> bool {
    match replayed(alloc, NINE_LINES, None) {
        Some(replayed) => are_written(alloc, &replayed),
        None => false,
    }
}

#[test]
fn a_report_has_all_steps_and_a_summary_their_count(rt: HostRuntime) {
    assert!(rt; are_right(rt.alloc()));
}
