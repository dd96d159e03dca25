//! How entries are added to a journal, as far as there is room.
ghost use Rattle.std.specs.Prelude.{◌≡◌, ◌+◌, ◌∷◌, ◌++◌, ◌==◌, [], length, IfOk, IfErr};
ghost use Rattle.mk_sched.specs.inner.Derived.{taken_by, entries_by};

use crate::faults::{CoreFault, Taken};
use crate::taking::Upshot;
use mk_base::{Mem, SimNo};
use mk_plan::{Entry, Journal, Message, Plan};

// Whether the journal holds as many entries as the plan allows.
pub fn is_full(plan: &Plan, journal: &Journal) -> bool
    ensures { result ≡ (length journal.now.entries == plan.now.entries) }
{
    journal.entries.len() == plan.entries as usize
}

// Whether the journal has room for one more entry alone.
pub fn has_last_room(plan: &Plan, journal: &Journal) -> bool
    ensures { result ≡ (length journal.now.entries + 1 == plan.now.entries) }
{
    let limit = plan.entries as usize;
    limit > 0 && journal.entries.len() == limit - 1
}

// The fault of a journal that holds as many entries as the plan allows.
pub fn too_long(plan: &Plan) -> CoreFault
    ensures { result ≡ CoreFault.TooLong plan.now.entries }
{
    CoreFault::TooLong {
        entries: plan.entries,
    }
}

// Ends the journal with a message of the simulator, and with what is sent after it, if there is something; what follows
// then.
pub fn push_all(
    journal: &mut Journal,
    sim: SimNo,
    message: Message,
    upshot: Upshot,
) -> Result<Taken, Mem>
    ensures ok { IfOk result (λ taken. (taken ≡ taken_by upshot)
        × (journal.new.entries ≡ entries_by journal.old.entries sim message upshot)) }
    ensures err { IfErr result (λ _. journal.new.entries ≡ journal.old.entries) }
{
    let got = Entry::Got(sim, message);
    match upshot {
        Upshot::Quiet => push_one(journal, got, Taken::Quiet),
        Upshot::Send(item) => push_two(journal, got, Entry::Sent(sim, item)),
        Upshot::Fault(fault) => push_one(journal, got, Taken::Fault(fault)),
    }
}

// Ends the journal with an entry; what follows then.
fn push_one(journal: &mut Journal, entry: Entry, taken: Taken) -> Result<Taken, Mem>
    ensures ok { IfOk result (λ t. (t ≡ taken)
        × (journal.new.entries ≡ journal.old.entries ++ entry ∷ [])) }
    ensures err { IfErr result (λ _. journal.new.entries ≡ journal.old.entries) }
{
    journal.entries.push(entry)?;
    Ok(taken)
}

// Ends the journal with two entries, of which the second is to be sent.
fn push_two(journal: &mut Journal, first: Entry, second: Entry) -> Result<Taken, Mem>
    ensures ok { IfOk result (λ t. (t ≡ Taken.Send)
        × (journal.new.entries ≡ journal.old.entries ++ first ∷ [] ++ second ∷ [])) }
    ensures err { IfErr result (λ _. journal.new.entries ≡ journal.old.entries) }
{
    let Ok(()) = journal.entries.push(first) else {
        drop(second);
        return Err(Mem);
    };
    match journal.entries.push(second) {
        Ok(()) => Ok(Taken::Send),
        Err(Mem) => {
            drop(journal.entries.pop());
            Err(Mem)
        }
    }
}
