//! What is said where no plan can be made.
ghost use Rattle.std.specs.Prelude.{◌≡◌, [], ◌++◌, OnOk};
ghost use Rattle.std.specs.Fmt.{decimal};
ghost use Rattle.mosaikrun_endings.specs.Setups.{spaced, text_of_connect, text_of_create, text_of_meta, text_of_setup};

use crate::lines::{put, put_number};
use mk_base::Text;
use mk_connect_pairs::ConnectFault;
use mk_entities::CreateFault;
use mk_meta::MetaFault;
use std::alloc::{AllocError, Global};

/// Why what simulators said before a run, and what the scenario connects, makes no plan. A simulator is named by its
/// id.
#[derive(Drop)]
pub enum SetupEnding {
    /// A simulator's reply to `init` has no metadata.
    Meta { sim: Text, fault: MetaFault },
    /// A simulator's reply to `create` adds no entities.
    Create { sim: Text, fault: CreateFault },
    /// A group or a connection of the scenario can't be had.
    Connect(ConnectFault),
    /// A simulator sent a message that it wasn't asked for.
    Unasked { sim: Text },
    /// A simulator sent a failure reply with this text.
    Failed { sim: Text, text: Text },
}

// Puts into an empty text what is said of it.
pub fn put_setup(alloc: Global, out: &mut Vec<u8>, setup: &SetupEnding) -> Result<(), AllocError>
    requires { out.old.items ≡ [] }
    ensures { OnOk result (out.new.items ≡ text_of_setup setup.now) }
{
    match setup {
        SetupEnding::Meta { sim, fault } => put_meta(out, sim, fault),
        SetupEnding::Create { sim, fault } => put_create(alloc, out, sim, fault),
        SetupEnding::Connect(fault) => put_connect(alloc, out, fault),
        SetupEnding::Unasked { sim } => {
            put(out, "setup: ")?;
            put(out, sim.as_str())?;
            put(out, " unasked message")
        }
        SetupEnding::Failed { sim, text } => {
            put(out, "setup: ")?;
            put(out, sim.as_str())?;
            put(out, " failed: ")?;
            put(out, text.as_str())
        }
    }
}

fn put_meta(out: &mut Vec<u8>, sim: &Text, fault: &MetaFault) -> Result<(), AllocError>
    requires { out.old.items ≡ [] }
    ensures { OnOk result (out.new.items ≡ text_of_meta sim.now fault.now) }
{
    match fault {
        MetaFault::NoVersion => put_one(out, "meta 1:", sim),
        MetaFault::Version(text) => put_two(out, "meta 2:", sim, text),
        MetaFault::BadType(text) => put_two(out, "meta 3:", sim, text),
        MetaFault::NoModels => put_one(out, "meta 4:", sim),
        MetaFault::Model(model, member) => put_three(out, "meta 5:", sim, model, member),
        MetaFault::TriggerUnknown(model, name) => put_three(out, "meta 6:", sim, model, name),
        MetaFault::Mem => put(out, "out of memory"),
    }
}

fn put_create(
    alloc: Global,
    out: &mut Vec<u8>,
    sim: &Text,
    fault: &CreateFault,
) -> Result<(), AllocError>
    requires { out.old.items ≡ [] }
    ensures { OnOk result (out.new.items ≡ text_of_create sim.now fault.now) }
{
    match fault {
        CreateFault::Count(wanted, count) => {
            put_one(out, "create 1:", sim)?;
            put_spaced_number(alloc, out, *wanted as u64)?;
            put_spaced_number(alloc, out, *count)
        }
        CreateFault::NoEid(place) => {
            put_one(out, "create 2:", sim)?;
            put_spaced_number(alloc, out, *place as u64)
        }
        CreateFault::TwiceEid(eid) => put_two(out, "create 3:", sim, eid),
        CreateFault::OfType(eid) => put_two(out, "create 4:", sim, eid),
        CreateFault::Related(eid, named) => put_three(out, "create 5:", sim, eid, named),
        CreateFault::TooMany(count) => {
            put_one(out, "create 6:", sim)?;
            put_spaced_number(alloc, out, *count)
        }
        CreateFault::Mem => put(out, "out of memory"),
    }
}

fn put_connect(alloc: Global, out: &mut Vec<u8>, fault: &ConnectFault) -> Result<(), AllocError>
    requires { out.old.items ≡ [] }
    ensures { OnOk result (out.new.items ≡ text_of_connect fault.now) }
{
    match fault {
        ConnectFault::NoEntity(id) => put_one(out, "connect 1:", id),
        ConnectFault::NoSourceAttr(id, attr) => put_two(out, "connect 2:", id, attr),
        ConnectFault::NoTargetAttr(id, attr) => put_two(out, "connect 3:", id, attr),
        ConnectFault::NotPublic(sim, model) => put_two(out, "connect 4:", sim, model),
        ConnectFault::UnknownParam(model, param) => put_two(out, "connect 5:", model, param),
        ConnectFault::Twice(id, attr, source) => put_three(out, "connect 6:", id, attr, source),
        ConnectFault::NoInitial(id, attr) => put_two(out, "connect 7:", id, attr),
        ConnectFault::TooMany(count) => {
            put(out, "connect 9:")?;
            put_spaced_number(alloc, out, *count)
        }
        ConnectFault::Mem => put(out, "out of memory"),
    }
}

// Puts a space and a text.
fn put_spaced(out: &mut Vec<u8>, text: &Text) -> Result<(), AllocError>
    ensures { OnOk result (out.new.items ≡ out.old.items ++ spaced text.now) }
{
    put(out, " ")?;
    put(out, text.as_str())
}

// Puts a space and a number.
fn put_spaced_number(alloc: Global, out: &mut Vec<u8>, n: u64) -> Result<(), AllocError>
    ensures { OnOk result (out.new.items ≡ out.old.items ++ spaced (decimal n)) }
{
    put(out, " ")?;
    put_number(alloc, out, n)
}

// Puts into an empty text these words, and texts behind them, each after a space.
fn put_one(out: &mut Vec<u8>, words: &str, text: &Text) -> Result<(), AllocError>
    requires { out.old.items ≡ [] }
    ensures { OnOk result (out.new.items ≡ words.now ++ spaced text.now) }
{
    put(out, words)?;
    put_spaced(out, text)
}

fn put_two(out: &mut Vec<u8>, words: &str, text: &Text, other: &Text) -> Result<(), AllocError>
    requires { out.old.items ≡ [] }
    ensures { OnOk result (out.new.items ≡ words.now ++ spaced text.now ++ spaced other.now) }
{
    put_one(out, words, text)?;
    put_spaced(out, other)
}

fn put_three(
    out: &mut Vec<u8>,
    words: &str,
    text: &Text,
    other: &Text,
    third: &Text,
) -> Result<(), AllocError>
    requires { out.old.items ≡ [] }
    ensures { OnOk result (out.new.items ≡ words.now ++ spaced text.now ++ spaced other.now
        ++ spaced third.now) }
{
    put_two(out, words, text, other)?;
    put_spaced(out, third)
}
