//! How lines are put into a draft.
ghost use Rattle.std.specs.Prelude.{◌≡◌, ◌≤◌, ◌⊎◌, Some, length, take};
ghost use Rattle.mk_outside.specs.Sinks.{appended};
ghost use Rattle.mk_scribe.specs.Drafts.{HasRefused, draft_of};
ghost use Rattle.mk_scribe.specs.inner.Steps.{Ends, Moves};

use itoa::Buffer;
use mk_outside::{PutAll, Sink, Wrote, put_all};

// Puts lines until all are taken or none is, and lets go of what was taken.
pub fn hand_over<S: Sink>(draft: &mut S, lines: &mut Vec<u8>)
    ensures { Moves (draft_of S.written S.faults S.shortages (Some draft.old)) lines.old.items
        (draft_of S.written S.faults S.shortages (Some draft.new)) lines.new.items }
{
    let done = put_first(draft, lines.as_slice());
    lines.drain(..done);
}

// Puts a text until all is taken or nothing is, and says how many of its bytes were.
fn put_first<S: Sink>(draft: &mut S, text: &[u8]) -> usize
    ensures within { result ≤ length text.now }
    ensures count { S.faults draft.old ≤ S.faults draft.new }
    ensures wants { S.shortages draft.old ≤ S.shortages draft.new }
    ensures taken { S.written draft.new ≡ appended (take result text.now) (S.written draft.old) }
    ensures all { (result ≡ length text.now)
        ⊎ HasRefused (draft_of S.written S.faults S.shortages (Some draft.old))
        (draft_of S.written S.faults S.shortages (Some draft.new)) }
{
    let mut done = 0;
    while done < text.len() {
        match draft.put(&text[done..]) {
            Wrote::Took(n) => done += n,
            Wrote::Failed | Wrote::Mem => return done,
        }
    }
    done
}

// Puts the `end` line, which needs no memory, and says whether all of it was taken.
pub fn put_end<S: Sink>(draft: &mut S, count: usize) -> bool
    ensures { Ends (draft_of S.written S.faults S.shortages (Some draft.old)) count
        (draft_of S.written S.faults S.shortages (Some draft.new)) result }
{
    let mut buffer = Buffer::new();
    let digits = buffer.format(count as u64);
    let PutAll::Done = put_all(draft, b"end ") else {
        return false;
    };
    let PutAll::Done = put_all(draft, digits.as_bytes()) else {
        return false;
    };
    let PutAll::Done = put_all(draft, b"\n") else {
        return false;
    };
    true
}
