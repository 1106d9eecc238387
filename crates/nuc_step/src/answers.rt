use nuc_base::NodeId;
use nuc_class::Op;
use sqlite_items::Items;
use thiserror::Error;

/// How a client answers operations that are to fly.
#[derive(Clone, Copy, Debug, PartialEq, Eq)]
pub enum FlyReply {
    /// They are in flight.
    Flying,
    /// So many others are in flight still.
    Busy(u64),
    Memory,
}

/// No operation of this number stands at the stage that the call needs.
#[derive(Clone, Copy, Debug, PartialEq, Eq, Error)]
#[error("no such operation at this stage")]
pub struct NoSuchOp;

/// Why an operation isn't taken. Where both reasons hold, the first one here is given.
#[derive(Clone, Copy, Debug, PartialEq, Eq, Error)]
pub enum TakeFault {
    #[error("no such operation at this stage")]
    NoSuchOp,
    #[error("out of memory")]
    Memory,
}

/// What comes of asking a client for a plan. The operations are shown with their numbers, and a commit with its base.
#[derive(Debug, Drop)]
pub enum Planned {
    /// Nothing is to be done: the three trees are equal.
    Empty,
    /// A record step, which has taken place.
    Booked(Op),
    /// Operations that are in flight now, and may be carried out in any order.
    Batch(Items<Op>),
    /// What clears the way for others. It is in flight, or has taken place where it has no effect.
    Mend(Op),
    /// So many operations are in flight still.
    Busy(u64),
}

/// How a client answers a listing of its folder.
#[derive(Clone, Copy, Debug, PartialEq, Eq)]
pub enum ListReply {
    /// It is held, for as long as Local has changed this often.
    Held(u64),
    /// It has so many items, more than `MOST_ITEMS`.
    TooLong(u64),
}

/// How a client answers a change that a user made in its folder.
#[derive(Clone, Copy, Debug, PartialEq, Eq)]
pub enum WatchReply {
    /// Local has the change, at this identity.
    Changed(NodeId),
    /// It doesn't fit what the client knows: the folder is to be listed and scanned.
    Rescan,
}

/// What comes of a scan: of taking the listing that a client holds over into Local.
#[derive(Clone, Copy, Debug, PartialEq, Eq)]
pub enum Scanned {
    /// So many identities have another value in Local.
    Changed(u64),
    /// No listing is held.
    NoListing,
    /// Local, which has changed this often, isn't as it was when the listing was made.
    Stale(u64),
    /// This item is the first that is bad, counted from 1.
    Bad(u64),
}
