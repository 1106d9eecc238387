use crate::Reason;

/// How an operation ended.
#[derive(Clone, Copy, Debug, PartialEq, Eq)]
pub enum DoneReply {
    /// The trees have the operation's values.
    Applied,
    /// The outcome came too late: what it looks at isn't as planned any more. Local and Synced are as before; Remote took
    /// the server's entries up to a commit that was accepted.
    Stale,
    /// The outside change wasn't made, for this reason. No tree was changed.
    Dropped(Reason),
    /// No operation of that number is in flight and taken.
    NoSuchOp,
}
