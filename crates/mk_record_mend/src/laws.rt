//! What holds of records that were mended.
ghost use Rattle.std.specs.Prelude.{◌≡◌, ◌<◌, ◌≤◌, ◌+◌, ◌^◌, ℕ, true, List, ◌∷◌, Option, length, take};
ghost use Rattle.mk_plan.specs.declared.Plan.{Plan};
ghost use Rattle.mk_plan.specs.declared.Entry.{Entry};
ghost use Rattle.mk_plan.specs.Journals.{Arrival};
ghost use Rattle.mk_record_read.specs.Entries.{RecordEntry, entries_of};
ghost use Rattle.mk_record_read.specs.Reading.{State, reading, Said, Faulty, before_lines, unended};
ghost use Rattle.mk_record_read.specs.Texts.{entry_line, plan_text, record_text};
ghost use Rattle.mk_record_read.specs.declared.saved.Asked.{Asked};
ghost use Rattle.mk_record_laws.specs.Again.{IsRecordable};
ghost use Rattle.mk_record_mend.specs.Mended.{ends_in_entry, mended, whole_lines};
ghost use Rattle.mk_record_mend.specs.Whole.{IsBeginningOf, Leads};

/// A whole record is left as it is.
pub fn whole_records_are_left()
    ensures { (bytes : List ℕ) → (P : Plan) → (A : List Arrival) → (steps : Option (List Asked))
        → reading bytes ≡ Said P A steps → mended bytes ≡ bytes }
{}

/// A record with a fault is mended only where the fault is that no `end` line comes: with any other fault it is read as
/// before, with the same fault at the same line.
pub fn other_faults_stay()
    ensures { (bytes : List ℕ) → (line : ℕ) → (fault : ℕ)
        → reading bytes ≡ Faulty line fault → (fault ≡ unended → ⊥)
        → reading (mended bytes) ≡ Faulty line fault }
{}

/// Where each whole line of a text of fewer than 2^64 bytes may stand where it does, and the last of them is an entry,
/// the mended text is read as what these lines say.
pub fn mended_is_read()
    ensures { (bytes : List ℕ) → (T : State) → length bytes < 2 ^ 64
        → Leads before_lines (whole_lines bytes) T
        → ends_in_entry (whole_lines bytes) ≡ true
        → reading (mended bytes) ≡ Said T.plan T.arrivals T.asks }
{}

/// The record of a plan and of a journal, cut at any byte after its first entry, is mended to the record of a beginning
/// of the journal; and it is read as the plan, the messages of this beginning and its Steps.
pub fn cut_records_are_read()
    ensures { (P : Plan) → (J : List Entry) → (first : RecordEntry) → (others : List RecordEntry)
        → (n : ℕ) → IsRecordable P J → entries_of J ≡ first ∷ others
        → length (plan_text P) + length (entry_line first) ≤ n
        → IsBeginningOf P J (take n (record_text P J)) }
{}
