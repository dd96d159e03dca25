//! A run of simulators within the program alone: a counter at the head of a long chain.

use crate::within::journal_within;
use mk_base::Mem;
use mk_local::Registry;
use std::alloc::Global;

const HEAD: &str = "until = 200\n[[sim]]\nname = \"C\"\nlocal = \"counter\"\n";

const RELAY: &str = "[[sim]]\nname = \"R\"\nlocal = \"relay\"\n";

const HEAD_ENTITY: &str = "[[entities]]\nid = \"e0\"\nsim = \"C-0\"\nmodel = \"Count\"\n";

// How many relays there are.
const RELAYS: usize = 199;

fn push_line(
    alloc: Global,
    text: &mut String,
    before: &str,
    number: usize,
    behind: &str,
) -> Result<(), Mem> {
    text.push_str(before)?;
    text.push_str(number.to_string(alloc)?.as_str())?;
    text.push_str(behind)?;
    Ok(())
}

// The group of the relay of this number.
fn push_group(alloc: Global, text: &mut String, relay: usize) -> Result<(), Mem> {
    let group = relay.saturating_add(1);
    push_line(alloc, text, "[[entities]]\nid = \"e", group, "\"\n")?;
    push_line(alloc, text, "sim = \"R-", relay, "\"\nmodel = \"Relay\"\n")
}

// The connection to the relay of this number.
fn push_connection(alloc: Global, text: &mut String, relay: usize) -> Result<(), Mem> {
    let group = relay.saturating_add(1);
    push_line(alloc, text, "[[connect]]\nfrom = \"e", relay, "\"\n")?;
    push_line(
        alloc,
        text,
        "to = \"e",
        group,
        "\"\nattrs = [[\"out\", \"in\"]]\n",
    )
}

// A counter and the relays, each with one entity; each gives its output to the next one.
fn chain(alloc: Global) -> Result<String, Mem> {
    let mut text = String::from_str(alloc, HEAD)?;
    for _ in 0..RELAYS {
        text.push_str(RELAY)?;
    }
    text.push_str(HEAD_ENTITY)?;
    for relay in 0..RELAYS {
        push_group(alloc, &mut text, relay)?;
    }
    for relay in 0..RELAYS {
        push_connection(alloc, &mut text, relay)?;
    }
    Ok(text)
}

// How many entries the journal of a scenario's run has; none where it isn't done.
fn entries_within(alloc: Global, kinds: &Registry, text: &str) -> usize {
    match journal_within(alloc, kinds, text) {
        Some(journal) => journal.entries.len(),
        None => 0,
    }
}

/// Whether all of them are done, each with as many turns as there are times: four entries a turn, and two of the last
/// relay.
pub fn is_long_chain_run(alloc: Global, kinds: &Registry) -> Result<bool, Mem> {
    let text = chain(alloc)?;
    Ok(entries_within(alloc, kinds, text.as_str()) == 159_600)
}
