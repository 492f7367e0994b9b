//! One version of a cell.

use jr_base::Value;
use jr_stamps::PinId;

/// The last stamp of a version that nothing replaced.
pub const FOREVER: u64 = u64::MAX;

/// How far the history of a heap goes.
#[derive(Clone, Copy, Debug, PartialEq, Eq)]
pub struct Past {
    /// The first stamp past the last make and write: 0 where there was none.
    pub changes: u64,
    /// The first stamp past the last write: 0 where there was none.
    pub writes: u64,
}

/// Where a version stands.
#[derive(Clone, Copy, Debug, PartialEq, Eq)]
pub enum Home {
    /// At the front of its cell's chain.
    Newest,
    /// Behind the front, while it is decided whether a pin needs it.
    Loose,
    /// Behind the front, and in the dead list of this pin, whose stamp is the greatest that the version serves.
    Dead(PinId),
    /// In no chain, and in the pending list.
    Pending,
}

/// A value of a cell, which serves the stamps from `since` through `upto`.
#[derive(Clone, Copy, Debug, PartialEq, Eq)]
pub struct Version {
    /// The cell's place.
    pub place: u32,
    pub value: Value,
    pub since: u64,
    pub upto: u64,
    pub home: Home,
    /// The version before it in the chain.
    pub older: Option<usize>,
    /// The version behind it in the chain.
    pub newer: Option<usize>,
    /// The next of its dead list.
    pub next: Option<u32>,
}
