//! The line of progress: an onlooker that tells how far a run is.
ghost use Rattle.std.specs.Prelude.{◌≡◌, true};
ghost use Rattle.mk_onlooker.specs.Showings.{AreInRange};
ghost use Rattle.mk_progress.specs.Looks.{GoesOn, IsNewLine, IsTakenAway, LineEnds, Tells, TookAll, looks_of_line};

use crate::due::Due;
use crate::progress::Progress;
use crate::stopwatch::Stopwatch;
use crate::tally::{Tally, put_blank, put_line};
use mk_onlooker::Onlooker;
use mk_outside::{PutAll, Sink, put_all};
use mk_plan::{Entry, Plan};
use std::alloc::Global;

/// Puts a line that tells how far a run is, over the one before it: the greatest time of a Step and the plan's end, both
/// in the scenario's unit; how many Steps were sent; and how many that is a second.
///
/// The clock is asked at pauses of the run, and at each 16th look without one. Nothing is put in the clock's first
/// second, and 200 milliseconds or more lie between two lines. Once its sink doesn't take all of a line, nothing more is
/// put. At the end of the run the line is taken away. Nothing of this ends the run.
#[derive(Drop)]
pub struct ProgressLine<S, C> {
    sink: S,
    clock: C,
    is_on: bool,
    tally: Tally,
    due: Due,
    width: usize,
    text: Vec<u8>,
}

impl<S: Sink, C: Stopwatch> ProgressLine<S, C> {
    /// A line that isn't there yet; where `is_on` is false none is ever put.
    pub fn new(alloc: Global, sink: S, clock: C, is_on: bool) -> ProgressLine<S, C>
        ensures { IsNewLine sink clock is_on result }
    {
        ProgressLine {
            sink,
            clock,
            is_on,
            tally: Tally { time: 0, steps: 0 },
            due: Due::new(),
            width: 0,
            text: Vec::new(alloc),
        }
    }

    /// The sink, with what it has taken so far.
    pub fn sink(&self) -> &S
        ensures { result.now ≡ self.now.sink }
    {
        &self.sink
    }

    // Asks the clock, and puts a line where it is time and there is memory for it.
    fn tell(&mut self, until: i64)
        ensures { Tells S.written C.last self.old until self.new }
    {
        let passed = self.clock.passed();
        if passed >= self.due.next {
            self.text.clear();
            match put_line(&mut self.text, &self.tally, until, passed, self.width) {
                Ok(width) => {
                    self.due.put_off(passed);
                    self.width = width;
                    self.is_on = takes_all(&mut self.sink, self.text.as_slice());
                }
                Err(_) => {}
            }
        }
    }

    // Counts these entries, and tells of them where it is time to ask the clock.
    fn go_on(&mut self, plan: &Plan, fresh: &[Entry], is_pause: bool)
        requires { self.old.is_on ≡ true }
        ensures { GoesOn S.written C.last self.old plan.now fresh.now is_pause self.new }
    {
        self.tally.count(fresh);
        if self.due.asks(is_pause) {
            self.tell(plan.until);
        }
    }

    // Takes the line away, unless there is no memory for the blanks.
    fn take_away(&mut self)
        ensures { IsTakenAway S.written self.old self.new }
    {
        self.text.clear();
        match put_blank(&mut self.text, self.width) {
            Ok(()) => {
                self.width = 0;
                takes_all(&mut self.sink, self.text.as_slice());
            }
            Err(_) => self.width = 0,
        }
    }
}

impl<S: Sink, C: Stopwatch> Onlooker for ProgressLine<S, C> {
    ghost looks = { looks_of_line S.written C.last };

    fn look(&mut self, plan: &Plan, fresh: &[Entry], is_pause: bool)
        requires in_range { AreInRange fresh.now }
        ensures looked { looks_of_line S.written C.last self.old plan.now fresh.now is_pause self.new }
    {
        if self.is_on {
            self.go_on(plan, fresh, is_pause);
        }
    }
}

impl<S: Sink + Drop, C: Stopwatch + Drop> Progress for ProgressLine<S, C> {
    fn end(&mut self)
        ensures { LineEnds S.written self.old self.new }
    {
        if self.is_on && self.width > 0 {
            self.take_away();
        }
    }
}

// Puts a text, and says whether all of it was taken.
fn takes_all<S: Sink>(sink: &mut S, text: &[u8]) -> bool
    ensures { TookAll result text.now (S.written sink.old) (S.written sink.new) }
{
    match put_all(sink, text) {
        PutAll::Done => true,
        PutAll::Failed | PutAll::Mem => false,
    }
}
