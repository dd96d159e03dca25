//! From a record's bytes to what it says.
ghost use Rattle.std.specs.Prelude.{◌≡◌, ◌<◌, ◌+◌, ◌≤◌, ℕ, Some, None, Ok, Err, OnOk, IfOk, IfErr, IfSome, MatchOption, true, length, position, ◌==◌, map, All, ◌∷◌, ◌++◌, [], ◌^◌, unwrap_or, is_some};
ghost use Rattle.std.specs.List.{slice_split};
ghost use Rattle.mk_plan.specs.Plans.{IsValidPlan};
ghost use Rattle.mk_plan_check.specs.Tests.{first_bad};
ghost use Rattle.mk_record_read.specs.Reading.{reading, Faulty, before_lines, is_feed, word_of, rest_of, place, may_stand, line_step, kind_step, part_step, plan_step, steps_in};
ghost use Rattle.mk_record_read.specs.Seen.{came, said_by};
ghost use Rattle.mk_record_read.specs.inner.Seen.{is_second, state_of, saved_in};
ghost use Rattle.mk_record_read.specs.Steps.{IsKnown};
ghost use Rattle.mk_record_read.specs.inner.Steps.{IsSound, IsInvalid, IsOverlong, IsFaultAt, IsSoundAfter, IsLineTaken};

use crate::faults::{INVALID, LineFault, MISFORMED, RecordFault};
use crate::fields::is_word;
use crate::kinds::{LineKind, Version, ends_plan, kind_of_word, may_stand, place};
use crate::parts::{add_part, read_arrival, read_asked, read_end};
use crate::rooms::Rooms;
use crate::saved::{Asked, Progress, Saved};
use mk_base::{List, Mem};
use mk_plan::Plan;
use mk_plan_check::{PlanFault, check_plan};
use std::alloc::Global;

const UNENDED: u8 = 5;

const OVERLONG: u8 = 6;

fn test_plan(alloc: Global, plan: &Plan) -> Result<(), LineFault>
    ensures ok { OnOk result (first_bad plan.now ≡ None) }
    ensures valid { OnOk result (IsValidPlan plan.now) }
    ensures err { IfErr result (IsInvalid plan.now) }
{
    match check_plan(alloc, plan) {
        Ok(()) => Ok(()),
        Err(PlanFault::Bad(_)) => Err(INVALID),
        Err(PlanFault::Mem) => Err(LineFault::Mem),
    }
}

// Adds a line of a kind that may stand here; whether it ends the record.
fn take_part(
    alloc: Global,
    rooms: &mut Rooms,
    progress: &mut Progress,
    kind: LineKind,
    text: &[u8],
) -> Result<bool, LineFault>
    requires stands { may_stand progress.old.last kind ≡ true }
    requires valid { 8 ≤ place kind → IsValidPlan progress.old.plan }
    requires sound { IsSound progress.old }
    ensures { IsLineTaken progress.old
        (part_step (state_of progress.old) kind text.now) result progress.new }
{
    match kind {
        LineKind::Head => take_head(alloc, progress, text),
        LineKind::Run => take_addition(alloc, rooms, progress, kind, text),
        LineKind::Sim => take_addition(alloc, rooms, progress, kind, text),
        LineKind::Model => take_addition(alloc, rooms, progress, kind, text),
        LineKind::Entity => take_addition(alloc, rooms, progress, kind, text),
        LineKind::Conn => take_addition(alloc, rooms, progress, kind, text),
        LineKind::Async => take_addition(alloc, rooms, progress, kind, text),
        LineKind::Ask => take_ask(alloc, rooms, progress, text),
        LineKind::Got => take_message(alloc, rooms, progress, text),
        LineKind::End => take_end(progress, text),
    }
}

fn take_head(alloc: Global, progress: &mut Progress, text: &[u8]) -> Result<bool, LineFault>
    requires stands { may_stand progress.old.last LineKind.Head ≡ true }
    requires sound { IsSound progress.old }
    ensures { IsLineTaken progress.old
        (part_step (state_of progress.old) LineKind.Head text.now) result progress.new }
{
    if is_word(text, b"1") {
        progress.asks = None;
    } else if is_word(text, b"2") {
        progress.asks = Some(List::new(alloc));
    } else {
        return Err(MISFORMED);
    }
    progress.last = place(LineKind::Head);
    Ok(false)
}

fn take_addition(
    alloc: Global,
    rooms: &mut Rooms,
    progress: &mut Progress,
    kind: LineKind,
    text: &[u8],
) -> Result<bool, LineFault>
    requires stands { may_stand progress.old.last kind ≡ true }
    requires early { place kind < 8 }
    requires sound { IsSound progress.old }
    ensures { IsLineTaken progress.old
        (plan_step (state_of progress.old) kind text.now) result progress.new }
{
    let version = version_of(progress);
    add_part(
        alloc,
        &mut rooms.scratch,
        &mut progress.plan,
        version,
        kind,
        text,
    )?;
    progress.last = place(kind);
    Ok(false)
}

fn take_message(
    alloc: Global,
    rooms: &mut Rooms,
    progress: &mut Progress,
    text: &[u8],
) -> Result<bool, LineFault>
    requires valid { IsValidPlan progress.old.plan }
    requires sound { IsSound progress.old }
    ensures { IsLineTaken progress.old
        (part_step (state_of progress.old) LineKind.Got text.now) result progress.new }
{
    let arrival = read_arrival(alloc, rooms, &progress.plan, text)?;
    progress.arrivals.push(arrival)?;
    progress.last = place(LineKind::Got);
    Ok(false)
}

// Adds a step that was asked for; such lines stand in version 2 alone.
fn take_ask(
    alloc: Global,
    rooms: &mut Rooms,
    progress: &mut Progress,
    text: &[u8],
) -> Result<bool, LineFault>
    requires valid { IsValidPlan progress.old.plan }
    requires sound { IsSound progress.old }
    ensures { IsLineTaken progress.old
        (part_step (state_of progress.old) LineKind.Ask text.now) result progress.new }
{
    let asked = read_asked(
        alloc,
        &mut rooms.scratch,
        &progress.plan,
        progress.arrivals.len() as u64,
        text,
    )?;
    add_step(alloc, &mut progress.asks, asked)?;
    progress.last = place(LineKind::Ask);
    Ok(false)
}

fn add_step(alloc: Global, asks: &mut Option<List<Asked>>, asked: Asked) -> Result<(), Mem>
    ensures { OnOk result (asks.new ≡ Some (unwrap_or asks.old [] ++ asked ∷ [])) }
{
    let mut steps = match asks.take() {
        Some(steps) => steps,
        None => List::new(alloc),
    };
    steps.push(asked)?;
    *asks = Some(steps);
    Ok(())
}

// Ends the record.
fn take_end(progress: &mut Progress, text: &[u8]) -> Result<bool, LineFault>
    requires valid { IsValidPlan progress.old.plan }
    requires sound { IsSound progress.old }
    ensures { IsLineTaken progress.old
        (part_step (state_of progress.old) LineKind.End text.now) result progress.new }
{
    read_end(line_count(progress), text)?;
    Ok(true)
}

// Steps are kept in version 2 alone.
fn version_of(progress: &Progress) -> Version
    ensures { is_second result ≡ is_some progress.now.asks }
{
    match &progress.asks {
        Some(_) => Version::Second,
        None => Version::First,
    }
}

// How many lines say that a message came or that a step was asked for: none of a step where the
// record has no such lines.
fn line_count(progress: &Progress) -> u128
    ensures { result ≡ length progress.now.arrivals + length (steps_in (state_of progress.now)) }
{
    let steps = match &progress.asks {
        Some(asks) => asks.len(),
        None => 0,
    };
    progress.arrivals.len() as u128 + steps as u128
}

// Adds a line; whether it ends the record.
fn take_line(
    alloc: Global,
    rooms: &mut Rooms,
    progress: &mut Progress,
    line: &[u8],
) -> Result<bool, LineFault>
    requires { IsSound progress.old }
    ensures { IsLineTaken progress.old
        (line_step (state_of progress.old) line.now) result progress.new }
{
    let (word, text) = word_and_rest(line);
    let Some(kind) = kind_of_word(version_of(progress), word) else {
        return Err(MISFORMED);
    };
    take_kind(alloc, rooms, progress, kind, text)
}

fn take_kind(
    alloc: Global,
    rooms: &mut Rooms,
    progress: &mut Progress,
    kind: LineKind,
    text: &[u8],
) -> Result<bool, LineFault>
    requires { IsSound progress.old }
    ensures { IsLineTaken progress.old
        (kind_step (state_of progress.old) kind text.now) result progress.new }
{
    if ends_plan(progress.last, kind) {
        test_plan(alloc, &progress.plan)?;
    }
    if !may_stand(progress.last, kind) {
        return Err(MISFORMED);
    }
    take_part(alloc, rooms, progress, kind, text)
}

fn word_and_rest(line: &[u8]) -> (&[u8], &[u8])
    ensures word { result.0.now ≡ word_of line.now }
    ensures rest { result.1.now ≡ rest_of line.now }
{
    match position_of(b' ', line) {
        Some(i) => (&line[..i], &line[i + 1..]),
        None => (line, &[]),
    }
}

fn position_of(byte: u8, bytes: &[u8]) -> Option<usize>
    ensures { result ≡ position (λ b. b == byte) bytes.now }
{
    bytes.iter().position(|b| *b == byte)
}

// The first line, without its line feed, and what stands after that; none where no line feed comes.
fn line_and_rest(bytes: &[u8]) -> Option<(&[u8], &[u8])>
    ensures cut { MatchOption result (slice_split is_feed bytes.now ≡ bytes.now ∷ [])
        (λ p. slice_split is_feed bytes.now ≡ p.0.now ∷ slice_split is_feed p.1.now) }
    ensures shorter { IfSome result (λ p. length p.1.now + 1 ≤ length bytes.now) }
{
    match position_of(b'\n', bytes) {
        Some(i) => Some((&bytes[..i], &bytes[i + 1..])),
        None => None,
    }
}

/// What a record of version 1 or 2 says: its plan, which is valid, the messages that came, each from a simulator of the
/// plan and its whole numbers from -2^63 to 2^64 - 1, and in version 2 the steps that were asked for. `Line` has the
/// line and the number of the first fault; `Mem` is want of memory.
pub fn read_record(alloc: Global, bytes: &[u8]) -> Result<Saved, RecordFault>
    ensures ok { IfOk result (λ s. reading bytes.now ≡ said_by s) }
    ensures valid { IfOk result (λ s. IsValidPlan s.plan) }
    ensures known { IfOk result (λ s. All (IsKnown s.plan) (map came s.arrivals)) }
    ensures faulty { (l n : ℕ) → result ≡ Err (RecordFault.Line l n)
        → reading bytes.now ≡ Faulty l n }
{
    let mut progress = empty_progress(alloc);
    read_lines(alloc, &mut progress, bytes)?;
    Ok(saved(progress))
}

// Adds the lines of a record.
fn read_lines(alloc: Global, progress: &mut Progress, bytes: &[u8]) -> Result<(), RecordFault>
    requires empty { state_of progress.old ≡ before_lines }
    requires sound { IsSound progress.old }
    ensures ok { OnOk result (reading bytes.now ≡ said_by (saved_in progress.new)) }
    ensures sound { OnOk result (IsSoundAfter true progress.new) }
    ensures faulty { (l n : ℕ) → result ≡ Err (RecordFault.Line l n)
        → reading bytes.now ≡ Faulty l n }
{
    let mut rooms = Rooms::new(alloc);
    let mut number: u64 = 1;
    let mut rest = bytes;
    while let Some((line, after)) = line_and_rest(rest) {
        match take_line(alloc, &mut rooms, progress, line) {
            Ok(false) => {}
            Ok(true) => return closed(number, after),
            Err(fault) => return Err(at_line(number, fault)),
        }
        number += 1;
        rest = after;
    }
    Err(RecordFault::Line(number, UNENDED))
}

fn at_line(number: u64, fault: LineFault) -> RecordFault
    ensures { IsFaultAt number fault result }
{
    match fault {
        LineFault::Bad(n) => RecordFault::Line(number, n),
        LineFault::Mem => RecordFault::Mem,
    }
}

fn empty_progress(alloc: Global) -> Progress
    ensures empty { state_of result ≡ before_lines }
    ensures sound { IsSound result }
{
    Progress {
        last: 0,
        plan: Plan {
            until: 0,
            loops: 0,
            entries: 0,
            sims: List::new(alloc),
            models: List::new(alloc),
            entities: List::new(alloc),
            conns: List::new(alloc),
            asyncs: List::new(alloc),
        },
        arrivals: List::new(alloc),
        asks: None,
    }
}

// Whether a record may end with this line, where `after` follows.
fn closed(number: u64, after: &[u8]) -> Result<(), RecordFault>
    requires { number + 1 < 2 ^ 64 }
    ensures ok { OnOk result (after.now ≡ []) }
    ensures faulty { IfErr result (IsOverlong number after.now) }
{
    match after {
        [] => Ok(()),
        _ => Err(RecordFault::Line(number + 1, OVERLONG)),
    }
}

fn saved(progress: Progress) -> Saved
    ensures { result ≡ saved_in progress }
{
    Saved {
        plan: progress.plan,
        arrivals: progress.arrivals,
        asks: progress.asks,
    }
}
