//! What holds of every run.
ghost use Rattle.mk_run.specs.Ends.{Completes};
ghost use Rattle.mk_run.specs.Laws.{KindsFit, RunsAreRight, WithinRunsEnd};

use mk_local::metadata_is_accepted;
use mk_run_local::kinds_are_right;
use mk_setup::replies_make;

/// A run with a plan has said on each link a beginning of what sequential execution sends over all messages that may
/// come, and where nothing is left to do it has sent all of that; the max_advance of each Step is a promise; and
/// wherever it rested once all had set up, nobody was ready, and all was said or a write took nothing.
pub fn runs_are_right()
    ensures { RunsAreRight }
{}

/// A run with a plan in which nothing went wrong that it can show ends because nothing is left to do, or for want of
/// memory.
pub fn runs_complete()
    ensures { Completes }
{}

/// In the plan of a run no reply of a simulator within the program is wrong, whatever the other simulators send.
pub fn kinds_fit()
    ensures { KindsFit }
{
    metadata_is_accepted();
    replies_make();
    kinds_are_right();
}

/// A run with a plan whose simulators are all within the program meets no fault of the core but a limit: that of loops
/// within a time, or that of entries.
pub fn within_runs_end()
    ensures { WithinRunsEnd }
{
    kinds_fit();
}
