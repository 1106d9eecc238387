ghost use Rattle.std.specs.Prelude.{◌≡◌, IfOk};
ghost use Rattle.std.specs.Option.{option_copied};

use nuc_base::{Change, Node, NodeId};
use std::alloc::{AllocError, Global};

/// What an operation is for. The first five carry out the wish of that name; the others are mends, which clear the way
/// for wishes that can't be carried out yet.
#[derive(Clone, Copy, Debug, PartialEq, Eq)]
pub enum Verb {
    /// What the server has comes to the folder.
    Down,
    /// What the folder has goes to the server.
    Up,
    /// What the server has deleted goes in the folder.
    CutDown,
    /// What the folder has deleted goes at the server.
    CutUp,
    /// What both have deleted is forgotten.
    Forget,
    /// Two nodes that came to one place on the two sides become one.
    Adopt,
    /// The local version of a file becomes a file of its own, a conflicted copy.
    Split,
    /// A folder goes back to where the server has it.
    Unmove,
    /// A folder that the folder's user has deleted comes back.
    Revive,
    /// A node leaves the place that another is to have.
    Evict,
}

/// Where an operation is carried out.
#[derive(Clone, Copy, Debug, PartialEq, Eq)]
pub enum Effect {
    /// Nowhere: the client alone notes it.
    Nothing,
    /// In the folder.
    Disk,
    /// At the server.
    Commit,
}

/// A planned operation.
#[derive(Debug, Drop)]
pub struct Op {
    /// Its number among the client's operations, from 1; 0 until the plan gives it one.
    pub number: u64,
    pub verb: Verb,
    pub id: NodeId,
    /// The second identity of an operation that has two, else 0.
    pub other: NodeId,
    /// What it does at its identity in each of the three trees.
    pub remote: Change,
    pub local: Change,
    pub synced: Change,
    /// The values that it was planned over.
    pub old_local: Option<Node>,
    pub old_synced: Option<Node>,
    /// The revision that a commit takes for the current one of its identity, 0 for a new one.
    pub base: u64,
    pub effect: Effect,
}

impl Op {
    ghost use Rattle.nuc_class.specs.Op.{up_of_new};

    /// The upload of a file that stands in Local alone: a commit over no revision, not numbered yet.
    pub fn new_file(alloc: Global, id: NodeId, local: &Node) -> Result<Op, AllocError>
        ensures { IfOk result (λ op. op ≡ up_of_new id.0 local.now) }
    {
        Ok(Op {
            number: 0,
            verb: Verb::Up,
            id,
            other: NodeId(0),
            remote: Change::Put(local.copy(alloc)?),
            local: Change::Keep,
            synced: Change::Put(local.copy(alloc)?),
            old_local: Some(local.copy(alloc)?),
            old_synced: None,
            base: 0,
            effect: Effect::Commit,
        })
    }

    pub fn copy(&self, alloc: Global) -> Result<Op, AllocError>
        ensures { IfOk result (λ op. op ≡ self.now) }
    {
        Ok(Op {
            number: self.number,
            verb: self.verb,
            id: self.id,
            other: self.other,
            remote: self.remote.copy(alloc)?,
            local: self.local.copy(alloc)?,
            synced: self.synced.copy(alloc)?,
            old_local: copy_of(alloc, self.old_local.as_ref())?,
            old_synced: copy_of(alloc, self.old_synced.as_ref())?,
            base: self.base,
            effect: self.effect,
        })
    }
}

/// The same value, with a name in memory of its own.
pub(crate) fn copy_of(alloc: Global, node: Option<&Node>) -> Result<Option<Node>, AllocError>
    ensures { IfOk result (λ copy. copy ≡ option_copied node.entry) }
{
    match node {
        Some(node) => Ok(Some(node.copy(alloc)?)),
        None => Ok(None),
    }
}
