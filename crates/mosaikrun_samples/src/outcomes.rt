//! What a run comes to as a text: the status, what is printed, and the record.

use mk_base::Mem;
use mosaikrun_endings::Ending;
use mosaikrun_run::Told;
use std::alloc::Global;

/// What a run comes to.
#[derive(Drop)]
pub struct Outcome {
    /// The status, a space, and what is printed or the line that says why nothing is.
    pub text: Vec<u8>,
    /// The record; empty where there is none.
    pub record: Vec<u8>,
}

/// What this comes to that a run told.
pub fn outcome_of(alloc: Global, told: &Told) -> Result<Outcome, Mem> {
    let text = text_of(alloc, &told.text)?;
    let record = record_of(alloc, &told.record_text)?;
    Ok(Outcome { text, record })
}

/// What a call comes to that ends so before a run.
pub fn refused(alloc: Global, ending: &Ending) -> Result<Outcome, Mem> {
    let text = line_of(alloc, ending)?;
    Ok(Outcome {
        text,
        record: Vec::new(alloc),
    })
}

// The status, a space, and the text or the line behind it.
fn text_of(alloc: Global, text: &Result<Vec<u8>, Ending>) -> Result<Vec<u8>, Mem> {
    match text {
        Ok(text) => numbered(alloc, 0, text.as_slice()),
        Err(ending) => line_of(alloc, ending),
    }
}

fn line_of(alloc: Global, ending: &Ending) -> Result<Vec<u8>, Mem> {
    let line = ending.line(alloc)?;
    numbered(alloc, ending.status(), line.as_slice())
}

fn numbered(alloc: Global, status: u8, text: &[u8]) -> Result<Vec<u8>, Mem> {
    let mut out = Vec::new(alloc);
    out.push(b'0'.saturating_add(status))?;
    out.push(b' ')?;
    out.extend_from_slice(text)?;
    Ok(out)
}

fn record_of(alloc: Global, record: &Option<Vec<u8>>) -> Result<Vec<u8>, Mem> {
    match record {
        Some(record) => Ok(Vec::from_slice(alloc, record.as_slice())?),
        None => Ok(Vec::new(alloc)),
    }
}

/// Whether a call comes to this text, or else ends with this line.
pub fn is_wanted(
    alloc: Global,
    outcome: &Result<Vec<u8>, Ending>,
    wanted: &str,
) -> Result<bool, Mem> {
    match outcome {
        Ok(text) => Ok(text.as_slice() == wanted.as_bytes()),
        Err(ending) => {
            let line = ending.line(alloc)?;
            Ok(line.as_slice() == wanted.as_bytes())
        }
    }
}

/// Whether these are the text and the record.
pub fn is_both(outcome: &Outcome, text: &str, record_text: &str) -> bool {
    outcome.text.as_slice() == text.as_bytes()
        && outcome.record.as_slice() == record_text.as_bytes()
}
