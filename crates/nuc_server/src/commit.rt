use nuc_base::{Node, NodeId};
use nuc_hash::Digest;

/// What a client asks of the server: a value for an identity, over the revision that the client knows.
#[derive(Debug, Drop)]
pub struct Commit {
    pub id: NodeId,
    /// The identity's current revision as the client knows it, 0 for one that isn't live.
    pub base: u64,
    /// The node that the identity gets, or none to delete it.
    pub value: Option<Node>,
}

/// Why a commit isn't accepted. Where several reasons hold, the first one here is given.
#[derive(Clone, Copy, Debug, PartialEq, Eq)]
pub enum Refusal {
    /// The base isn't the identity's current revision, which this is.
    Stale(u64),
    /// The identity has, or had, the other kind.
    KindChanged,
    /// The parent isn't a folder of the last tree.
    NoParent,
    /// Another identity has the place.
    Taken(NodeId),
    /// A folder would stand below itself.
    Cycle,
    /// A folder that is to be deleted has children.
    NotEmpty,
    /// The first block of the content that the store lacks.
    NoBlock(Digest),
}

/// The server's answer to a commit.
#[derive(Clone, Copy, Debug, PartialEq, Eq)]
pub enum CommitReply {
    /// It is the entry of this revision.
    Accepted(u64),
    Refused(Refusal),
    /// Memory is wanted, and nothing was changed.
    Memory,
}
