use nuc_folder::{Item, RanOp, UserReply};
use nuc_server::{Refusal, WebReply};
use nuc_step::{DoneReply, Planned, Scanned, WatchReply};
use sqlite_items::Items;

/// How an event is answered. Want of memory is none of these: then nothing has happened.
#[derive(Debug, Drop)]
pub enum Reply {
    User(UserReply),
    Web(WebReply),
    /// The listing, and how often Local had changed when it was made.
    Listed { changes: u64, items: Items<Item> },
    Scan(Scanned),
    Watch(WatchReply),
    /// The user has changed nothing that the client wasn't told.
    Nothing,
    /// How many entries were taken, and the cursor after them.
    Pulled { entries: u64, cursor: u64 },
    Plan(Planned),
    Started(StartReply),
    Took(TakeReply),
    Done(DoneReply),
    Restarted,
    Marked(MarkReply),
}

/// What came of the start of an operation.
#[derive(Debug, Drop)]
pub enum StartReply {
    /// The operation has begun; an upload with the bytes that it read.
    Ok { bytes: Option<Items<u8>> },
    /// The file isn't there any more, and the operation is taken so.
    Changed,
    /// The folder failed, and the operation is taken so.
    Failed,
    /// No operation of that number is planned.
    NoSuchOp,
}

/// What came of the outside change of an operation.
#[derive(Clone, Copy, Debug, PartialEq, Eq)]
pub enum TakeReply {
    /// What came of the folder's calls. A commit whose file changed since it was recorded is answered `Changed` too.
    Folder(RanOp),
    /// The server accepted the commit as this revision.
    Accepted(u64),
    Refused(Refusal),
    /// No operation of that number has begun.
    NoSuchOp,
}

/// How far a client was where its sync ended.
#[derive(Clone, Copy, Debug, PartialEq, Eq)]
pub enum MarkReply {
    /// Nothing is in flight, and the three trees are equal.
    Quiet,
    /// Something is in flight, or so many identities haven't equal values in the three trees.
    Stalled(u64),
}
