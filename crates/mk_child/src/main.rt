//! A simulator of one kind as a program of its own: reads the words KIND ADDRESS, connects to the address and serves
//! the simulator there.
#![tactic(auto)]

ghost use Rattle.std.specs.Prelude.{◌≡◌, [], true};
ghost use Rattle.mk_local.specs.inner.Registries as kinds;

use mk_base::Mem;
use mk_local::{EntityStep, Kind, Registry, TURNS, Turn, turn_of};
use mk_real::MioFleet;
use mk_real_files::words;
use mk_simapi::child;
use std::alloc::Global;
use std::process::ExitCode;
use std::sync::Wait;

fn main(rt: HostRuntime) -> ExitCode {
    match run(&rt, &rt, rt.alloc(), &TURNS) {
        Ok(status) => ExitCode::from(status),
        Err(_) => ExitCode::from(8),
    }
}

// Makes the kinds, one of each row, and serves one of them as the words say. Answers the program's status, or want of
// memory where the kinds can't be made.
fn run<W: Wait>(rt: &HostRuntime, waits: &W, alloc: Global, turns: &[Turn]) -> Result<u8, Mem>
    requires { kinds.are_new [] turns.now ≡ true }
{
    let mut kinds = Registry::new(alloc);
    for turn in turns {
        let turn = *turn;
        let body = Box::new(alloc, move |s: EntityStep| turn_of(turn, s))?;
        kinds.add(Kind::new(turn, body))?;
    }
    serve(rt, waits, alloc, &kinds)
}

// Reads the words, and serves the kind that they name.
fn serve<W: Wait>(rt: &HostRuntime, waits: &W, alloc: Global, kinds: &Registry) -> Result<u8, Mem> {
    let words = words(rt)?;
    let mut fleet = MioFleet::new(alloc, rt);
    Ok(child(waits, alloc, words.as_slice(), &mut fleet, kinds))
}
