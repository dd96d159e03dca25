//! Words of templates, and a fleet that is asked for each simulator.
ghost use Rattle.std.specs.Prelude.{◌<◌, ◌^◌, ℕ, List, length};
ghost use Rattle.mk_launch.specs.Ready.{IsPrepared};

use mk_base::{LinkNo, List, Mem, SimNo, Text};
use mk_fakes::{Ask, AskedFleet, MemFleet};
use mk_launch::{StartFault, prepare, start_all, words};
use mk_outside::Start;
use mk_scenario::{Scenario, read_scenario};
use std::alloc::Global;

fn are_same(words: &[Text], wanted: &[&str]) -> bool {
    for (word, want) in words.iter().zip(wanted) {
        if word.as_str() != *want {
            return false;
        }
    }
    words.len() == wanted.len()
}

// Whether these are the words of a template for port 5000.
fn are_words(alloc: Global, template: &Text, wanted: &[&str]) -> bool {
    match words(alloc, template, 5000) {
        Ok(words) => are_same(words.as_slice(), wanted),
        Err(_) => false,
    }
}

// A template and its words.
type Template = (&'static str, &'static [&'static str]);

fn has_words(alloc: Global, row: &Template) -> bool {
    match Text::of(alloc, row.0) {
        Ok(template) => are_words(alloc, &template, row.1),
        Err(_) => false,
    }
}

const TEMPLATES: [Template; 5] = [
    (
        "python sim.py \"my dir/x\" %(addr)s --p=100%%",
        &["python", "sim.py", "my dir/x", "127.0.0.1:5000", "--p=100%"],
    ),
    ("  a  b ", &["a", "b"]),
    ("a'b c'd \"'\" '' x", &["ab cd", "'", "", "x"]),
    ("'\"%(addr)s\"'%%%%", &["\"127.0.0.1:5000\"%%"]),
    ("\\\"é ü\\\" a\tb", &["\\é ü\\", "a\tb"]),
];

// How many templates have their words, up to the first that hasn't.
fn count_templates(alloc: Global) -> usize {
    for (place, row) in TEMPLATES.iter().enumerate() {
        if !has_words(alloc, row) {
            return place;
        }
    }
    TEMPLATES.len()
}

#[test]
fn templates_have_words(rt: HostRuntime) {
    assert_eq!(rt; count_templates(rt.alloc()), TEMPLATES.len());
}

// A port that listening gives, a connection to a port, and a command's words.
#[derive(Drop)]
enum Wanted {
    Port(u16),
    Connection(u16),
    Words(&'static [&'static str]),
}

fn is_wanted(ask: &Ask, wanted: &Wanted) -> bool {
    match (ask, wanted) {
        (Ask::Listened(port), Wanted::Port(want)) => port == want,
        (Ask::Begun(Start::Connect(port)), Wanted::Connection(want)) => port == want,
        (Ask::Begun(Start::Command(words)), Wanted::Words(want)) => {
            are_same(words.as_slice(), want)
        }
        _ => false,
    }
}

fn are_wanted(asks: &[Ask], wanted: &[Wanted]) -> bool {
    for (ask, want) in asks.iter().zip(wanted) {
        if !is_wanted(ask, want) {
            return false;
        }
    }
    asks.len() == wanted.len()
}

// What comes of a start: the fault and the places of the links, or what the fleet was asked for.
#[derive(Drop)]
enum Outcome {
    Begun(Option<StartFault>, &'static [Option<LinkNo>]),
    Asked(&'static [Wanted]),
}

// A file, how many simulators it has, the call at which the fleet fails, and what comes of a start.
type Row = (&'static str, u8, u64, Outcome);

// Two simulators by commands, one within the program, and one at a port.
const FOUR: &str = "until = 1
sim = [{name = 'A', command = 'a %(addr)s'}, {name = 'B', local = 'sum'}, {name = 'C', connect = '127.0.0.1:4000'}, {name = 'D', command = 'b --at=%(addr)s'}]
";

// A simulator by a command, one within the program, and one at a port.
const THREE: &str = "until = 1
sim = [{name = 'A', command = '\"my sim\" --at=%(addr)s 100%%'}, {name = 'B', local = 'sum'}, {name = 'C', connect = '127.0.0.1:4000'}]
";

// The fleet fails at no call, as it is to listen for the fourth simulator, and at the start of the first; and of three
// simulators at no call, at the second start, at the first one, and as it is to listen.
const STARTS: [Row; 7] = [
    (
        FOUR,
        4,
        9,
        Outcome::Begun(
            None,
            &[Some(LinkNo(0)), None, Some(LinkNo(1)), Some(LinkNo(2))],
        ),
    ),
    (
        FOUR,
        4,
        3,
        Outcome::Begun(
            Some(StartFault::Failed(SimNo(3))),
            &[Some(LinkNo(0)), None, Some(LinkNo(1))],
        ),
    ),
    (
        FOUR,
        4,
        1,
        Outcome::Begun(Some(StartFault::Failed(SimNo(0))), &[]),
    ),
    (
        THREE,
        3,
        9,
        Outcome::Asked(&[
            Wanted::Port(5000),
            Wanted::Words(&["my sim", "--at=127.0.0.1:5000", "100%"]),
            Wanted::Connection(4000),
        ]),
    ),
    (
        THREE,
        3,
        2,
        Outcome::Asked(&[
            Wanted::Port(5000),
            Wanted::Words(&["my sim", "--at=127.0.0.1:5000", "100%"]),
        ]),
    ),
    (THREE, 3, 1, Outcome::Asked(&[Wanted::Port(5000)])),
    (THREE, 3, 0, Outcome::Asked(&[])),
];

fn kinds(alloc: Global) -> Result<List<Text>, Mem> {
    let mut kinds = List::new(alloc);
    kinds.push(Text::of(alloc, "sum")?)?;
    Ok(kinds)
}

// A fleet that fails at this call.
fn fleet_failing(alloc: Global, failing: u64) -> Result<AskedFleet<MemFleet>, Mem> {
    let mut fails = List::new(alloc);
    fails.push(failing)?;
    let fleet = MemFleet::new(alloc, List::new(alloc), fails, 1, 0, 0)?;
    Ok(AskedFleet::new(alloc, fleet))
}

// Whether this comes of a start over a fleet.
fn is_begun(
    alloc: Global,
    scenario: &Scenario,
    fleet: &mut AskedFleet<MemFleet>,
    outcome: &Outcome,
) -> bool
    requires few { length scenario.now.sims < 2 ^ 32 }
    requires prepared { (kinds : List (List ℕ)) × IsPrepared scenario.now kinds }
{
    let mut links = List::new(alloc);
    let fault = start_all(alloc, scenario, fleet, &mut links).err();
    match outcome {
        Outcome::Begun(want, places) => fault == *want && links.as_slice() == *places,
        Outcome::Asked(wanted) => are_wanted(fleet.asks(), wanted),
    }
}

fn does_begin(alloc: Global, scenario: &Scenario, failing: u64, outcome: &Outcome) -> bool
    requires few { length scenario.now.sims < 2 ^ 32 }
    requires prepared { (kinds : List (List ℕ)) × IsPrepared scenario.now kinds }
{
    match fleet_failing(alloc, failing) {
        Ok(mut fleet) => is_begun(alloc, scenario, &mut fleet, outcome),
        Err(_) => false,
    }
}

fn is_prepared(alloc: Global, scenario: &Scenario, kinds: &List<Text>, row: &Row) -> bool {
    if scenario.sims.len() != usize::from(row.1) {
        return false;
    }
    match prepare(alloc, scenario, kinds) {
        Ok(()) => does_begin(alloc, scenario, row.2, &row.3),
        Err(_) => false,
    }
}

fn is_read(alloc: Global, kinds: &List<Text>, row: &Row) -> bool {
    match read_scenario(alloc, row.0.as_bytes()) {
        Ok(scenario) => is_prepared(alloc, &scenario, kinds, row),
        Err(_) => false,
    }
}

// How many starts have their outcome, up to the first that hasn't.
fn count_starts(alloc: Global, kinds: &List<Text>) -> usize {
    for (place, row) in STARTS.iter().enumerate() {
        if !is_read(alloc, kinds, row) {
            return place;
        }
    }
    STARTS.len()
}

fn count_started(alloc: Global) -> usize {
    match kinds(alloc) {
        Ok(kinds) => count_starts(alloc, &kinds),
        Err(_) => 1000,
    }
}

#[test]
fn simulators_are_started_in_their_order_and_ask_for_a_port_their_words_and_connections(
    rt: HostRuntime,
) {
    assert_eq!(rt; count_started(rt.alloc()), STARTS.len());
}
