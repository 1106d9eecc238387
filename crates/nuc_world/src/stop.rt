use thiserror::Error;

/// The most units of a log: an entry is one, and one more for each item of a listing.
pub const MOST_UNITS: u64 = 4_000_000;

/// Why a step isn't taken. The world, its log included, is as it was before then; of a folder that failed only the count of
/// its calls has changed. Where several reasons hold the first one here is given; but memory may be wanted at any time.
#[derive(Clone, Copy, Debug, PartialEq, Eq, Error)]
pub enum Stop {
    /// The world has no client of that number.
    #[error("no such client")]
    NoClient,
    /// The log would pass `MOST_UNITS`.
    #[error("the log is full")]
    LogFull,
    /// The folder that was to be listed failed.
    #[error("the folder couldn't be listed")]
    FolderFault,
    /// The folder that was to be listed has so many items, more than `MOST_ITEMS`.
    #[error("the folder has {0} items")]
    TooLong(u64),
    /// Memory was wanted, for the step or for its entry.
    #[error("out of memory")]
    Memory,
}
