//! The program mosaikrun: reads the words of the command line and does what they ask, over the system's files, streams,
//! sockets and child programs: runs a scenario, by the clock or without, or the demo, goes on with a run that was cut
//! short, checks a scenario, replays or migrates a record, makes tables of its values, and says who answered otherwise
//! in another record.
#![tactic(auto)]

ghost use Rattle.std.specs.Prelude.{◌≡◌, ◌<◌, ◌-◌, ◌^◌, [], true, length, map};
ghost use Rattle.mk_local.specs.inner.Registries as kinds;
ghost use Rattle.mk_watch_read.specs.Folds.{name_of};
ghost use Rattle.mk_watch_read.specs.inner.Rules as rules;

use mk_base::{Mem, Text};
use mk_local::{EntityStep, Kind, Registry, TURNS, Turn, turn_of};
use mk_progress::ProgressLine;
use mk_real::MioFleet;
use mk_real_files::{RealFolder, RealSink, RealStopwatch, words};
use mk_watch_read::{FOLDS, Fold, Rule, Rules, name_of, value_of};
use mosaikrun_program::program;
use std::alloc::Global;
use std::io::IsTerminal;
use std::process::ExitCode;
use std::sync::Wait;

fn main(rt: HostRuntime) -> ExitCode {
    match run(&rt, &rt, rt.alloc(), &TURNS) {
        Ok(status) => ExitCode::from(status),
        Err(_) => {
            let _ = rt.eprintln("mosaikrun: out of memory");
            ExitCode::from(8)
        }
    }
}

// Makes the kinds of simulators within the program, one of each row, and goes on with them. Answers the program's
// status.
fn run<W: Wait>(rt: &HostRuntime, waits: &W, alloc: Global, turns: &[Turn]) -> Result<u8, Mem>
    requires { kinds.are_new [] turns.now ≡ true }
{
    let mut kinds = Registry::new(alloc);
    for turn in turns {
        let turn = *turn;
        let body = Box::new(alloc, move |s: EntityStep| turn_of(turn, s))?;
        kinds.add(Kind::new(turn, body))?;
    }
    run_with(rt, waits, alloc, &kinds, &FOLDS)
}

// Makes the rules of tables within the program, one of each fold, and goes on with them.
fn run_with<W: Wait>(
    rt: &HostRuntime,
    waits: &W,
    alloc: Global,
    kinds: &Registry,
    folds: &[Fold],
) -> Result<u8, Mem>
    requires names { rules.are_new [] (map name_of folds.now) ≡ true }
    requires few { length folds.now < 2 ^ 32 - 1 }
{
    let mut rules = Rules::new(alloc);
    for fold in folds {
        let fold = *fold;
        let name = Text::of(alloc, name_of(fold))?;
        let body = Box::new(alloc, move |a: i64, b: i64| value_of(fold, a, b))?;
        rules.add(Rule::new(name, fold, body))?;
    }
    call(rt, waits, alloc, kinds, &rules)
}

// Reads the words, and calls the program over the system's folder, fleet and streams.
fn call<W: Wait>(
    rt: &HostRuntime,
    waits: &W,
    alloc: Global,
    kinds: &Registry,
    rules: &Rules,
) -> Result<u8, Mem> {
    let words = words(rt)?;
    let mut folder = RealFolder::new(rt);
    let mut fleet = MioFleet::new(alloc, rt);
    let mut out = RealSink::new(rt, false);
    let mut err = RealSink::new(rt, true);
    Ok(program(
        waits,
        alloc,
        words.as_slice(),
        &mut folder,
        &mut fleet,
        kinds,
        rules,
        &mut out,
        &mut err,
        progress_on(rt, alloc),
    ))
}

// The line of progress: on standard error, where that is a terminal.
fn progress_on(
    rt: &HostRuntime,
    alloc: Global,
) -> ProgressLine<RealSink, RealStopwatch<'_, HostRuntime>> {
    let is_on = rt.stderr().is_terminal();
    ProgressLine::new(
        alloc,
        RealSink::new(rt, true),
        RealStopwatch::new(rt),
        is_on,
    )
}
