//! What the command line asks for.
use mk_base::Text;

/// What the words ask for: a command on files, a run, one that goes on, one by a clock, or the demo.
#[derive(Drop)]
pub enum Request {
    /// Reads files, and prints or saves what it makes of them.
    Files(FileCommand),
    /// Runs the scenario of this file, and saves the record of the run under the other name, where one is given.
    Run {
        scenario: Text,
        record: Option<Text>,
    },
    /// Goes on with a run of the scenario of this file from the record of this one, and saves the record of the whole
    /// run under the third name, where one is given.
    Resume {
        scenario: Text,
        record: Text,
        save: Option<Text>,
    },
    /// Runs the scenario of this file by a clock, with so many milliseconds to a unit of time, from 1 to 86,400,000;
    /// no Step may be sent more milliseconds late than the number for it, at most 86,400,000, where one is given; and
    /// saves the record of the run under the other name, where one is given.
    Paced {
        scenario: Text,
        factor: u32,
        strict: Option<u32>,
        record: Option<Text>,
    },
    /// Runs the demo scenario of this size, from 1 to 100.
    Demo {
        size: u32,
    },
}

/// A command that reads files, with the names that it was given, and its option, `None` where it isn't given.
#[derive(Drop)]
pub enum FileCommand {
    /// Replays the record in the order of this number, 0 to 4,294,967,295, or as its messages came.
    Replay {
        record: Text,
        order: Option<u32>,
    },
    /// Checks the scenario.
    Check {
        scenario: Text,
    },
    /// One of those that are given two names.
    Pair {
        command: PairCommand,
        first: Text,
        second: Text,
    },
}

/// The commands on files that are given two names and no option.
#[derive(Clone, Copy, Debug, PartialEq, Eq)]
pub enum PairCommand {
    /// `migrate OLD NEW`: saves the record of a record's replay under a new name.
    Migrate,
    /// `watch RECORD SPEC`: tables of a record's values.
    Watch,
    /// `blame FIRST SECOND`: which simulators answered otherwise in the second record.
    Blame,
}

// The commands.
#[derive(Clone, Copy, Debug, PartialEq, Eq)]
pub enum Command {
    Run,
    Replay,
    Check,
    Demo,
    Resume,
    Paced,
    Pair(PairCommand),
}

// The options, each of which has a value.
#[derive(Clone, Copy, Debug, PartialEq, Eq)]
pub enum OptionName {
    Record,
    Order,
    Strict,
}
