//! Of which runs the premises of the program's clauses hold that say when it comes to its end.
#![tactic(auto)]

mod laws;

pub use laws::{
    done_runs_are_within, within_paced_studies_are_faultless, within_resumes_are_faultless,
    within_studies_are_faultless,
};
