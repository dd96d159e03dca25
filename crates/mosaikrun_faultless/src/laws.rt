//! Where all simulators are within the program, nothing goes wrong that a run can show.
ghost use Rattle.mosaikrun_faultless.specs.Laws.{DoneRunsAreWithin, WithinPacedStudiesAreFaultless, WithinResumesAreFaultless, WithinStudiesAreFaultless};

use mk_record_restored::restored_is_one;
use mk_run::runs_are_right;
use mk_run_crew::within_handshakes_are_faultless;

/// Of a file's bytes that are a scenario whose simulators are all within the program, whose kinds' answers make a plan,
/// and whose sequential execution meets no limit, nothing goes wrong in any run, where the count of faults doesn't
/// rise.
pub fn within_studies_are_faultless()
    ensures { WithinStudiesAreFaultless }
{
    within_handshakes_are_faultless();
}

/// Nothing but a Step's lateness goes wrong in any run of such bytes by a clock.
pub fn within_paced_studies_are_faultless()
    ensures { WithinPacedStudiesAreFaultless }
{
    within_handshakes_are_faultless();
}

/// Nothing goes wrong in any run that goes on from a record of such a run.
pub fn within_resumes_are_faultless()
    ensures { WithinResumesAreFaultless }
{
    within_handshakes_are_faultless();
    restored_is_one();
}

/// Where one run within the program came to its end, its scenario meets no limit, and its record is one of such a run.
/// So then nothing goes wrong in any other run of these bytes, or in one that goes on from that record.
pub fn done_runs_are_within()
    ensures { DoneRunsAreWithin }
{
    runs_are_right();
}
