use nuc_base::{Node, NodeId};
use nuc_edits::Edit;
use nuc_folder::Key;

/// How one identity of Local changes.
#[derive(Drop)]
pub(crate) enum Turn {
    /// It comes, with this key.
    Add(Key, Node),
    /// It is there, and has this node from now on.
    Put(Node),
    /// It goes, with its key.
    Cut,
}

/// What a change that a user made in the folder leads to.
#[derive(Drop)]
pub(crate) struct Watched {
    pub(crate) id: NodeId,
    pub(crate) turn: Turn,
    /// The edit of the next version that is recorded with it.
    pub(crate) edit: Option<Edit>,
}
