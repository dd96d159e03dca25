//! The limits of scenarios, plans and records.

/// The latest time at which a run may end, in the scenario's unit; a step's time and an initial event are no later.
pub const LATEST_END: i64 = 1_000_000_000;

/// The greatest loop limit.
pub const MOST_LOOPS: u32 = 1000;

/// The most entries that a journal may have.
pub const MOST_ENTRIES: u32 = 20_000_000;

/// The most simulators.
pub const MOST_SIMS: u32 = 200;

/// The greatest rank of a simulator: ranks go from 0 up without a gap.
pub const HIGHEST_RANK: u32 = 199;

/// The most models of a simulator.
pub const MOST_MODELS: u32 = 10_000;

/// The most entities: those of a group, and those of all simulators together.
pub const MOST_ENTITIES: u32 = 10_000;

/// The most connections of entities.
pub const MOST_CONNS: u32 = 100_000;

/// The most requests of a handshake with one simulator, and so its greatest first id.
pub const MOST_REQUESTS: u32 = 1_000_000;

/// The greatest width of a time shift, in the scenario's unit.
pub const WIDEST: u32 = 1_000_000;

/// How deep a value that a simulator gives or gets may nest: the most lists and objects in one another.
pub const VALUE_DEPTH: u32 = 100;

/// The greatest size of the demo scenario.
pub const LARGEST_DEMO: u32 = 100;
