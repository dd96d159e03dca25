//! The text of a verdict.
ghost use Rattle.std.specs.Prelude.{◌≡◌, ◌++◌, true, IfOk, OnOk};
ghost use Rattle.std.specs.Fmt.{signed_decimal};
ghost use Rattle.mk_message.specs.Written.{message_text};
ghost use Rattle.mk_blame.specs.Written.{is_writable, lines_of, may_be_written, verdict_text};
ghost use Rattle.mk_plan.specs.Messages.{is_message_in_range};

use crate::verdict::{Blamed, Verdict};
use mk_base::{Mem, put, put_signed, put_unsigned};
use mk_message::write;
use mk_plan::{Message, Plan, put_id};
use std::alloc::Global;

/// The text of a verdict on two journals of this plan (`docs/formats.md`, "Blame"): for each simulator
/// to blame its id, the place of its message, from 0, the tiered time of its last Step before, and both
/// messages; and at the end how many there are. If all is equal, that alone. `Mem` is want of memory.
pub fn write_verdict(alloc: Global, plan: &Plan, verdict: &Verdict) -> Result<Vec<u8>, Mem>
    requires { is_writable verdict.now ≡ true }
    ensures { IfOk result (λ text. text.items ≡ verdict_text plan.now verdict.now) }
{
    let mut out = Vec::new(alloc);
    match verdict {
        Verdict::Equal => put(&mut out, "equal\n")?,
        Verdict::Blamed(blamed) => {
            for one in blamed.as_slice() {
                put_blamed(alloc, &mut out, plan, one)?;
            }
            put(&mut out, "blamed ")?;
            put_unsigned(&mut out, blamed.len() as u64)?;
            put(&mut out, "\n")?;
        }
    }
    Ok(out)
}

// Appends the lines of a simulator that is to blame.
fn put_blamed(alloc: Global, out: &mut Vec<u8>, plan: &Plan, blamed: &Blamed) -> Result<(), Mem>
    requires { may_be_written blamed.now ≡ true }
    ensures { OnOk result (out.new.items ≡ out.old.items ++ lines_of plan.now blamed.now) }
{
    put_id(out, plan, blamed.sim)?;
    put(out, " message ")?;
    put_unsigned(out, blamed.place)?;
    put(out, " step ")?;
    put_time(out, &blamed.at.time)?;
    put(out, ":")?;
    put_unsigned(out, blamed.at.tier as u64)?;
    put(out, "\nfirst ")?;
    put_message(alloc, out, &blamed.first)?;
    put(out, "\nsecond ")?;
    put_message(alloc, out, &blamed.second)?;
    put(out, "\n")
}

fn put_message(alloc: Global, out: &mut Vec<u8>, message: &Message) -> Result<(), Mem>
    requires { is_message_in_range message.now ≡ true }
    ensures { OnOk result (out.new.items ≡ out.old.items ++ message_text message.now) }
{
    out.extend_from_slice(write(alloc, message)?.as_slice())?;
    Ok(())
}

// Appends a time.
fn put_time(out: &mut Vec<u8>, time: &i64) -> Result<(), Mem>
    ensures { OnOk result (out.new.items ≡ out.old.items ++ signed_decimal time.now) }
{
    put_signed(out, *time)
}
