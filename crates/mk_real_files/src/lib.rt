//! The system's files, its standard streams, its clock and the words of the call. No clause says what they hold.
#![tactic(auto)]

mod anew;
mod calling;
mod draft;
mod folder;
mod sink;
mod stopwatch;
mod writing;

pub use calling::words;
pub use draft::RealDraft;
pub use folder::RealFolder;
pub use sink::RealSink;
pub use stopwatch::RealStopwatch;
