//! What is put of small runs whose clock gives listed readings.
ghost use Rattle.std.specs.Prelude.{◌≡◌, true, IfOk};
ghost use Rattle.std.specs.List.{list_all};
ghost use Rattle.mk_record_write.specs.Writable.{is_writable};

use mk_base::{List, Mem, SimKind, SimNo, Tier};
use mk_fakes::MemSink;
use mk_onlooker::Onlooker;
use mk_plan::{Entry, Item, Plan};
use mk_plan_samples::{plan_of, two_simulators};
use mk_progress::{Progress, ProgressLine, Stopwatch};
use std::alloc::Global;
use std::test::Fail;

// Gives these readings, one after the other, and the last one again and again.
#[derive(Drop)]
struct Listed {
    readings: &'static [u64],
    place: usize,
    last: u64,
}

impl Stopwatch for Listed {
    ghost last = { λ s. s.last };

    fn passed(&mut self) -> u64 {
        if let Some(reading) = self.readings.get(self.place) {
            self.last = self.last.max(*reading);
        }
        self.place = self.place.saturating_add(1);
        self.last
    }
}

fn clock(readings: &'static [u64]) -> Listed {
    Listed {
        readings,
        place: 0,
        last: 0,
    }
}

// Which calls of the sink fail, by their numbers from 0; what the clock gives, in milliseconds; the times of the Steps
// that each look shows; whether each is at a pause, and whether the run ends behind them; and the whole text that is put.
struct Row {
    is_on: bool,
    fails: &'static [u64],
    readings: &'static [u64],
    looks: &'static [&'static [i64]],
    is_pause: bool,
    does_end: bool,
    text: &'static [u8],
}

// The run's end is at 20.
const ROWS: [Row; 12] = [
    // nothing before a second has passed, and nothing to take away then
    Row {
        is_on: true,
        fails: &[],
        readings: &[0, 999],
        looks: &[&[0], &[1]],
        is_pause: true,
        does_end: true,
        text: b"",
    },
    // the first line; a Step may have an earlier time than one before it
    Row {
        is_on: true,
        fails: &[],
        readings: &[999, 1_000],
        looks: &[&[0, 7], &[3]],
        is_pause: true,
        does_end: false,
        text: b"\rtime 7 of 20, 3 steps, 3 a second",
    },
    // no second line before 200 milliseconds more
    Row {
        is_on: true,
        fails: &[],
        readings: &[1_000, 1_199],
        looks: &[&[0], &[1]],
        is_pause: true,
        does_end: false,
        text: b"\rtime 0 of 20, 1 steps, 1 a second",
    },
    // nor before 200 more than the first line's
    Row {
        is_on: true,
        fails: &[],
        readings: &[1_150, 1_349, 1_350],
        looks: &[&[0], &[1], &[]],
        is_pause: true,
        does_end: false,
        text: b"\rtime 0 of 20, 1 steps, 0 a second\rtime 1 of 20, 2 steps, 1 a second",
    },
    // a shorter line over a longer one
    Row {
        is_on: true,
        fails: &[],
        readings: &[1_000, 60_000],
        looks: &[&[0, 1, 2, 3, 4, 5, 6, 7, 8, 9, 9, 9], &[9]],
        is_pause: true,
        does_end: false,
        text: b"\rtime 9 of 20, 12 steps, 12 a second\rtime 9 of 20, 13 steps, 0 a second ",
    },
    // the line is taken away at the end: as many blanks as it is long itself
    Row {
        is_on: true,
        fails: &[],
        readings: &[1_000],
        looks: &[&[4]],
        is_pause: true,
        does_end: true,
        text: b"\rtime 4 of 20, 1 steps, 1 a second\r                                 \r",
    },
    // where it is off, nothing
    Row {
        is_on: false,
        fails: &[],
        readings: &[1_000, 2_000],
        looks: &[&[0], &[1]],
        is_pause: true,
        does_end: true,
        text: b"",
    },
    // after a fault of the sink nothing more is put, at the end neither
    Row {
        is_on: true,
        fails: &[0],
        readings: &[1_000, 2_000],
        looks: &[&[0], &[1]],
        is_pause: true,
        does_end: true,
        text: b"",
    },
    Row {
        is_on: true,
        fails: &[1],
        readings: &[1_000, 2_000, 3_000],
        looks: &[&[0], &[1], &[2]],
        is_pause: true,
        does_end: true,
        text: b"\rtime 0 of 20, 1 steps, 1 a second",
    },
    // without a pause the clock is asked at the 16th look
    Row {
        is_on: true,
        fails: &[],
        readings: &[1_000],
        looks: &[
            &[0],
            &[1],
            &[2],
            &[3],
            &[4],
            &[5],
            &[6],
            &[7],
            &[8],
            &[9],
            &[10],
            &[11],
            &[12],
            &[13],
            &[14],
        ],
        is_pause: false,
        does_end: false,
        text: b"",
    },
    Row {
        is_on: true,
        fails: &[],
        readings: &[1_000],
        looks: &[
            &[0],
            &[1],
            &[2],
            &[3],
            &[4],
            &[5],
            &[6],
            &[7],
            &[8],
            &[9],
            &[10],
            &[11],
            &[12],
            &[13],
            &[14],
            &[15],
        ],
        is_pause: false,
        does_end: false,
        text: b"\rtime 15 of 20, 16 steps, 16 a second",
    },
    // a run without a Step
    Row {
        is_on: true,
        fails: &[],
        readings: &[5_000],
        looks: &[&[]],
        is_pause: true,
        does_end: false,
        text: b"\rtime 0 of 20, 0 steps, 0 a second",
    },
];

fn plan(alloc: Global) -> Result<Plan, Mem> {
    let sims = two_simulators(alloc, (SimKind::TimeBased, 3), (SimKind::EventBased, 0))?;
    plan_of(alloc, 20, 2, sims, List::new(alloc))
}

fn step(alloc: Global, time: i64) -> Entry
    ensures { is_writable result ≡ true }
{
    let item = Item::Step {
        at: Tier { time, tier: 0 },
        inputs: List::new(alloc),
        max_advance: 20,
    };
    Entry::Sent(SimNo(0), item)
}

// A Step at each of these times, and a GetData behind them.
fn entries(alloc: Global, times: &[i64]) -> Result<List<Entry>, Mem>
    ensures { IfOk result (λ entries. list_all is_writable entries ≡ true) }
{
    let mut entries = List::new(alloc);
    for time in times {
        entries.push(step(alloc, *time))?;
    }
    let item = Item::GetData {
        wanted: List::new(alloc),
    };
    entries.push(Entry::Sent(SimNo(1), item))?;
    Ok(entries)
}

fn sink(alloc: Global, fails: &[u64]) -> Result<MemSink, Mem> {
    let mut numbers = List::new(alloc);
    for number in fails {
        numbers.push(*number)?;
    }
    Ok(MemSink::new(alloc, numbers))
}

fn show(line: &mut ProgressLine<MemSink, Listed>, plan: &Plan, entries: &[Entry], is_pause: bool)
    requires { list_all is_writable entries.now ≡ true }
{
    line.look(plan, entries, is_pause);
}

// The line behind the run.
fn told(alloc: Global, plan: &Plan, row: &Row) -> Result<ProgressLine<MemSink, Listed>, Mem> {
    let sink = sink(alloc, row.fails)?;
    let mut line = ProgressLine::new(alloc, sink, clock(row.readings), row.is_on);
    for times in row.looks.iter() {
        let entries = entries(alloc, times)?;
        show(&mut line, plan, entries.as_slice(), row.is_pause);
    }
    if row.does_end {
        line.end();
    }
    Ok(line)
}

// Whether this text was put.
fn has_put(line: &ProgressLine<MemSink, Listed>, text: &[u8]) -> bool {
    line.sink().bytes() == text
}

#[test]
fn each_run_is_told_as_listed(rt: HostRuntime) -> Result<(), Fail> {
    let alloc = rt.alloc();
    let plan = plan(alloc)?;
    for row in ROWS.iter() {
        let line = told(alloc, &plan, row)?;
        assert!(rt; has_put(&line, row.text));
    }
    Ok(())
}
