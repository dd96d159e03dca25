//! A program that is one simulator: it connects to an address, and is served there.
ghost use Rattle.std.specs.Prelude.{◌≡◌, ◌↔◌, ℕ, ◌≤◌, [], ◌∷◌, List, Some, None, map, string_bytes, option_map};
ghost use Rattle.mk_outside.specs.Counts.{HasRisen};
ghost use Rattle.mk_local.specs.Registries.{rows_in};
ghost use Rattle.mk_simapi.specs.Children.{AsksToConnect, HasEnded, asked, status_of};

use crate::served::Served;
use crate::serving::serve;
use mk_base::Text;
use mk_local::Registry;
use mk_outside::{Fleet, Start, Started};
use mk_scenario_keys::port_of;
use std::alloc::Global;
use std::sync::Wait;

// The words are no kind and address.
const USAGE: u8 = 2;

// The fleet has failed.
const OUTSIDE: u8 = 6;

// There was no memory.
const MEMORY: u8 = 8;

// The name of a kind and a port.
#[derive(Clone, Copy)]
struct Asked<'a> {
    kind: &'a str,
    port: u16,
}

// What the words ask for; `None` where they aren't a kind's name and an address on this machine.
fn read_words<'a>(words: &'a [String], kinds: &Registry) -> Option<Asked<'a>>
    ensures { option_map (λ a. let p : List ℕ × ℕ = (a.kind.now, a.port) in p) result
        ≡ asked (rows_in kinds.now) (map string_bytes words.now) }
{
    match words {
        [kind, address] => at_address(kind.as_str(), address.as_str(), kinds),
        _ => None,
    }
}

fn at_address<'a>(kind: &'a str, address: &str, kinds: &Registry) -> Option<Asked<'a>>
    ensures { option_map (λ a. let p : List ℕ × ℕ = (a.kind.now, a.port) in p) result
        ≡ asked (rows_in kinds.now) (kind.now ∷ address.now ∷ []) }
{
    if !kinds.has(kind) {
        return None;
    }
    match port_of(address) {
        Some(port) => Some(Asked { kind, port }),
        None => None,
    }
}

// The status by which an end is told.
fn status_of(end: Served) -> u8
    ensures { result ≡ status_of end }
{
    match end {
        Served::Stopped => 0,
        Served::Closed => 5,
        Served::Failed => OUTSIDE,
        Served::Garbled(_) => 5,
        Served::TooLong(_) => 5,
        Served::LongReply(_) => 7,
        Served::Mem => MEMORY,
    }
}

/// Connects to the address that the words name, which starts one link or none, serves a simulator of the kind that they
/// name there, and closes the link. Answers the program's status: 2 exactly where the words aren't the name of one of
/// these kinds and an address, `127.0.0.1` or `localhost` with a port; 0 at a stop, 5 where the link ended or what was
/// heard is no message or too long for one, 6 where the fleet failed, 7 where a reply is too long for a frame, 8 for
/// want of memory.
pub fn child<F: Fleet, R: Wait>(
    rt: &R,
    alloc: Global,
    words: &[String],
    fleet: &mut F,
    kinds: &Registry,
) -> u8
    ensures usage { (result ≡ 2) ↔ (asked (rows_in kinds.now) (map string_bytes words.now) ≡ None) }
    ensures count { F.faults fleet.old ≤ F.faults fleet.new }
    ensures cause { result ≡ 6 → HasRisen (F.faults fleet.old) (F.faults fleet.new) }
    ensures unasked { asked (rows_in kinds.now) (map string_bytes words.now) ≡ None
        → fleet.new ≡ fleet.old }
    ensures ended { (kind : List ℕ) → (port : ℕ)
        → asked (rows_in kinds.now) (map string_bytes words.now) ≡ Some (kind, port)
        → HasEnded (rows_in kinds.now) kind (F.started fleet.old) (F.started fleet.new)
        (F.open_links fleet.old) (F.open_links fleet.new) (F.log fleet.old)
        (F.log fleet.new) result }
    ensures connects { (kind : List ℕ) → (port : ℕ)
        → asked (rows_in kinds.now) (map string_bytes words.now) ≡ Some (kind, port)
        → AsksToConnect port (F.started fleet.old) (F.started fleet.new) (F.asked fleet.old)
        (F.asked fleet.new) }
{
    let Some(asked) = read_words(words, kinds) else {
        return USAGE;
    };
    let Ok(kind) = Text::of(alloc, asked.kind) else {
        return MEMORY;
    };
    match fleet.start(&Start::Connect(asked.port)) {
        Started::Link(link) => {
            let end = serve(rt, alloc, kinds, &kind, fleet, link);
            fleet.close(link);
            status_of(end)
        }
        Started::Failed => OUTSIDE,
        Started::Mem => MEMORY,
    }
}
