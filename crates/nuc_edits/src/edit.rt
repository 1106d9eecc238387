use nuc_base::{NodeId, Ver};
use nuc_hash::Content;

/// What an edit did.
#[derive(Debug, Drop)]
pub enum EditKind {
    /// It put this content.
    Put(Content),
    /// It took the file away.
    Deleted,
}

/// A recorded edit of a file.
#[derive(Debug, Drop)]
pub struct Edit {
    pub ver: Ver,
    pub id: NodeId,
    /// The version that it replaces, 0 for a new file.
    pub base: Ver,
    pub what: EditKind,
}

/// One version stands for another from now on, of an equal hash.
#[derive(Clone, Copy, Debug, PartialEq, Eq)]
pub struct Adoption {
    /// The version that was given up.
    pub old: Ver,
    /// The version that stands in its place.
    pub into: Ver,
}
