use nuc_base::{NodeId, Place};

/// What clears the way for a wish that can't be carried out.
#[derive(Debug, Drop)]
pub(crate) enum Remedy {
    /// What Local has of a file becomes a file of its own.
    Split(NodeId),
    /// An identity leaves a place, wherever it has it.
    Evict(NodeId, Place),
    /// The first comes to Local in place of the second.
    Adopt(NodeId, NodeId),
    /// A folder comes back to Local.
    Revive(NodeId),
    /// A folder goes back in Local to where Remote has it.
    Unmove(NodeId),
}
