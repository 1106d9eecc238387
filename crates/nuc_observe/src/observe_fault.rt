use thiserror::Error;

/// Why a listing gives no new Local.
#[derive(Clone, Copy, Debug, PartialEq, Eq, Error)]
pub enum ObserveFault {
    /// This item is the first that is bad, counted from 1.
    #[error("item {0} of the listing is bad")]
    BadListing(u64),
    #[error("out of memory")]
    Memory,
}
