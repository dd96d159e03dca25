//! How far a run is: the Steps that are counted, and the text that tells of them.
ghost use Rattle.std.specs.Prelude.{◌≡◌, ◌≤◌, ◌++◌, ◌∷◌, [], length, IfOk, OnOk};
ghost use Rattle.mk_progress.specs.Lines.{blank_text, blanks, line_text, told_text};
ghost use Rattle.mk_progress.specs.Tallies.{item_time, rate, step_time, tally_after};

use mk_base::{Mem, put, put_signed, put_unsigned};
use mk_plan::{Entry, Item};

/// How many Steps a run has sent, up to 2^64 - 1, and the greatest time of one, in the scenario's unit.
#[derive(Clone, Copy, Debug, PartialEq, Eq)]
pub struct Tally {
    pub time: i64,
    pub steps: u64,
}

impl Tally {
    // Counts the Steps among these entries.
    pub fn count(&mut self, fresh: &[Entry])
        ensures { self.new ≡ tally_after self.old fresh.now }
    {
        let mut tally = *self;
        for entry in fresh {
            tally = tally.and(entry);
        }
        *self = tally;
    }

    // The tally after an entry.
    fn and(self, entry: &Entry) -> Tally
        ensures { result ≡ tally_after self (entry.now ∷ []) }
    {
        match step_time(entry) {
            Some(time) => Tally {
                time: self.time.max(time),
                steps: self.steps.saturating_add(1),
            },
            None => self,
        }
    }

    // How many Steps a second there were.
    fn rate(&self, passed: u64) -> u64
        requires { 1000 ≤ passed }
        ensures { result ≡ rate self.now.steps passed }
    {
        (self.steps as u128 * 1000 / passed as u128) as u64
    }
}

// The time of an entry, if it is a Step.
fn step_time(entry: &Entry) -> Option<i64>
    ensures { result ≡ step_time entry.now }
{
    match entry {
        Entry::Sent(_, item) => item_time(item),
        Entry::Got(_, _) => None,
    }
}

// The time of an item, if it is a Step.
fn item_time(item: &Item) -> Option<i64>
    ensures { result ≡ item_time item.now }
{
    match item {
        Item::Step {
            at,
            inputs: _,
            max_advance: _,
        } => Some(at.time),
        Item::GetData { wanted: _ } => None,
        Item::Answer { id: _, content: _ } => None,
        Item::Refuse { id: _, reason: _ } => None,
    }
}

// Appends a line, blanks after it as far as one of that width reached, and gives the line's own width.
pub fn put_line(
    out: &mut Vec<u8>,
    tally: &Tally,
    until: i64,
    passed: u64,
    width: usize,
) -> Result<usize, Mem>
    requires late { 1000 ≤ passed }
    requires empty { out.old.items ≡ [] }
    ensures line { OnOk result (out.new.items ≡ line_text width until tally.now passed) }
    ensures width { IfOk result (λ n. n ≡ length (told_text until tally.now passed)) }
{
    put(out, "\r")?;
    put_told(out, tally, until, passed)?;
    let told = out.len() - 1;
    put_blanks(out, width.saturating_sub(told))?;
    Ok(told)
}

// Appends what a line tells.
fn put_told(out: &mut Vec<u8>, tally: &Tally, until: i64, passed: u64) -> Result<(), Mem>
    requires { 1000 ≤ passed }
    ensures { OnOk result (out.new.items ≡ out.old.items ++ told_text until tally.now passed) }
{
    put(out, "time ")?;
    put_signed(out, tally.time)?;
    put(out, " of ")?;
    put_signed(out, until)?;
    put(out, ", ")?;
    put_unsigned(out, tally.steps)?;
    put(out, " steps, ")?;
    put_unsigned(out, tally.rate(passed))?;
    put(out, " a second")
}

// Appends what takes a line of this width away.
pub fn put_blank(out: &mut Vec<u8>, width: usize) -> Result<(), Mem>
    requires { out.old.items ≡ [] }
    ensures { OnOk result (out.new.items ≡ blank_text width) }
{
    put(out, "\r")?;
    put_blanks(out, width)?;
    put(out, "\r")
}

// Appends so many blanks.
fn put_blanks(out: &mut Vec<u8>, count: usize) -> Result<(), Mem>
    ensures { OnOk result (out.new.items ≡ out.old.items ++ blanks count) }
{
    for _ in 0..count {
        put(out, " ")?;
    }
    Ok(())
}
