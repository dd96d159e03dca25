//! The endings, and the status of each.
ghost use Rattle.std.specs.Prelude.{◌≡◌};

use crate::links::LinkFault;
use crate::setup::SetupEnding;
use mk_base::{List, Text};
use mk_launch::LaunchFault;
use mk_scenario::ScenarioFault;
use mk_watch_read::WatchFault;

/// Why a command has no text to print. Each has one status and one line on the error output (`docs/messages.md`).
#[derive(Drop)]
pub enum Ending {
    /// The words are no command.
    Usage,
    /// There is no file of this name.
    Missing {
        name: Text,
    },
    /// The file has this many bytes, more than a file may have.
    TooLong {
        name: Text,
        count: u64,
    },
    /// The file is no scenario, by the first test that it fails.
    Scenario(ScenarioFault),
    /// The file says no watches, by the first test that it fails.
    Watches(WatchFault),
    /// Plain connections and asynchronous pairs lead in a circle, through these simulators.
    Cycle {
        sims: List<Text>,
    },
    /// A simulator of the scenario can't be begun.
    Launch {
        sim: Text,
        fault: LaunchFault,
    },
    /// What the simulators said before the run, or what the scenario connects, makes no plan.
    Setup(SetupEnding),
    /// The file is no record, by the first line, counted from 1, that has a fault, and the fault's number.
    Record {
        line: u64,
        fault: u8,
    },
    /// A simulator's message, by its place among those of this simulator, counted from 0, is wrong, by this cause
    /// (`docs/rules.md`).
    Wrong {
        sim: Text,
        place: u64,
        cause: u8,
    },
    /// A simulator sent a failure reply with this text.
    Failed {
        sim: Text,
        text: Text,
    },
    /// A simulator is triggered beyond the loop limit at this time.
    LoopLimit {
        sim: Text,
        time: i64,
    },
    /// A simulator's link has ended, or no message came on it.
    Link {
        sim: Text,
        fault: LinkFault,
    },
    /// The record's messages are at their end, and so many requests have no answer.
    Short {
        outstanding: u32,
    },
    /// The record's entry of this number, from 0, isn't the journal's.
    Differs {
        entry: u32,
    },
    /// The record is of another plan than the one that it is compared with: this part of it, counted from 1, is the
    /// first that differs.
    OtherPlan {
        part: u8,
    },
    /// A simulator's message of this number, counted from 0 after its handshake, isn't the record's.
    OtherMessage {
        sim: Text,
        place: u64,
    },
    /// A simulator's step at this time was to be asked for so many milliseconds after its moment, more than are
    /// allowed.
    Late {
        sim: Text,
        time: i64,
        late: u64,
        allowed: u64,
    },
    /// The links to the simulators failed, or couldn't be started, or the clock failed.
    Fleet,
    /// The folder failed.
    Folder,
    /// The output failed.
    Output,
    /// The journal has this many entries, as many as it may have, and one more is needed.
    Entries {
        entries: u32,
    },
    /// What a simulator is to be sent next has this many bytes, more than a message may have.
    LongItem {
        sim: Text,
        length: u64,
    },
    /// Want of memory.
    Mem,
}

impl From<mk_base::Mem> for Ending {
    ghost use Rattle.mosaikrun_endings.specs.declared.ending.Ending.TheVariants as ends;

    ghost from_gives = { λ _ e. e ≡ ends.Mem };

    fn from(_e: mk_base::Mem) -> Ending {
        Ending::Mem
    }
}

impl Ending {
    ghost use Rattle.mosaikrun_endings.specs.Endings.{status_of};

    /// The status with which the program ends, from 2 to 8.
    pub fn status(&self) -> u8
        ensures { result ≡ status_of self.now }
    {
        match self {
            Ending::Usage => 2,
            Ending::Missing { .. } | Ending::TooLong { .. } => 3,
            Ending::Watches(_) => 3,
            Ending::Scenario(_) | Ending::Cycle { .. } | Ending::Launch { .. } => 3,
            Ending::Record { .. } => 3,
            Ending::Setup(_) => 4,
            Ending::Wrong { .. } | Ending::Failed { .. } | Ending::LoopLimit { .. } => 5,
            Ending::Link { .. } | Ending::Short { .. } | Ending::Differs { .. } => 5,
            Ending::OtherPlan { .. } | Ending::OtherMessage { .. } | Ending::Late { .. } => 5,
            Ending::Fleet | Ending::Folder | Ending::Output => 6,
            Ending::Entries { .. } | Ending::LongItem { .. } => 7,
            Ending::Mem => 8,
        }
    }
}
