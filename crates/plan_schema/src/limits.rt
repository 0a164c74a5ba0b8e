//! The limits of scenarios and of their history. Definitions cite these numbers from here.

/// The most parts of a scenario.
pub const PART_LIMIT: usize = 10_000;

/// The most records of a scenario.
pub const RECORD_LIMIT: usize = 200_000;

/// The most scenarios, `Baseline` among them.
pub const SCENARIO_LIMIT: usize = 256;

/// The most scenarios above one, from its parent up to `Baseline`.
pub const DEPTH_LIMIT: usize = 32;

/// The most entries of a history.
pub const ENTRY_LIMIT: usize = 1_000_000;

/// The most records that the entries of a history put or take away, all together.
pub const CARRIED_LIMIT: u64 = 4_000_000;

/// The most rows of one load.
pub const LOAD_LIMIT: usize = 1_000;

/// The most sessions of a run.
pub const SESSION_LIMIT: u64 = 16;

/// The most lines of a session's input.
pub const LINE_LIMIT: u64 = 1_000_000;

/// The most bytes of a session's input, and of a journal.
pub const BYTE_LIMIT: usize = 1_073_741_824;
