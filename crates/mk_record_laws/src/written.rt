//! What is written is read again.
ghost use Rattle.std.specs.Prelude.{◌≡◌, List, Some};
ghost use Rattle.mk_plan.specs.declared.Plan.{Plan};
ghost use Rattle.mk_plan.specs.declared.Entry.{Entry};
ghost use Rattle.mk_plan.specs.Journals.{arrivals};
ghost use Rattle.mk_record_read.specs.Reading.{reading, Said};
ghost use Rattle.mk_record_read.specs.Texts.{record_text};
ghost use Rattle.mk_record_laws.specs.Again.{IsRecordable, steps_of};

/// The record of a plan and of a journal, read again, gives the plan, the messages of the journal in order, and its
/// Steps with their tiered times, `max_advance` and places among the messages; where the plan is valid, of at most
/// 2,000,000 models, its texts are UTF-8 and its initial values data, and the journal's Steps and messages are of its
/// simulators, within the limits of a record, and fewer than 2^64.
pub fn written_is_read()
    ensures { (P : Plan) → (J : List Entry) → IsRecordable P J
        → reading (record_text P J) ≡ Said P (arrivals J) (Some (steps_of J)) }
{}
