//! A journal over what a record says.
ghost use Rattle.std.specs.Prelude.{◌≡◌, ◌≤◌, ℕ, List, Option, length};
ghost use Rattle.mk_plan.specs.declared.Plan.{Plan};
ghost use Rattle.mk_plan.specs.declared.Entry.{Entry};
ghost use Rattle.mk_plan.specs.Plans.{IsValidPlan};
ghost use Rattle.mk_plan.specs.Journals.{Arrival, arrivals};
ghost use Rattle.mk_plan.specs.Orderly.{IsEager};
ghost use Rattle.mk_record_read.specs.Reading.{reading, Said};
ghost use Rattle.mk_record_read.specs.declared.saved.Asked.{Asked};
ghost use Rattle.mk_record_laws.specs.Again.{IsRecordable};

/// Where bytes are a record of a valid plan, an eager journal of that plan, within its limit of entries, in which the
/// record's messages came, and no others, can be recorded so that its record is read again: the texts that were read
/// are UTF-8, each message may stand in a line, and the numbers of each Step are within the limits of a record.
pub fn said_is_recordable()
    ensures { (bytes : List ℕ) → (P : Plan) → (A : List Arrival) → (steps : Option (List Asked))
        → (J : List Entry)
        → reading bytes ≡ Said P A steps → IsValidPlan P → IsEager P J → arrivals J ≡ A
        → length J ≤ P.entries → IsRecordable P J }
{}
