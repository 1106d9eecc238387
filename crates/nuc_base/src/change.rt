ghost use Rattle.std.specs.Prelude.{◌≡◌, IfOk};

use crate::Node;
use std::alloc::{AllocError, Global};

/// What becomes of the node at one identity of a tree.
#[derive(Debug, Drop)]
pub enum Change {
    /// It stays as it is.
    Keep,
    /// The identity gets this node, in place of the one that it had.
    Put(Node),
    /// It goes.
    Cut,
}

impl Change {
    /// The same change, with a name in memory of its own.
    pub fn copy(&self, alloc: Global) -> Result<Change, AllocError>
        ensures { IfOk result (λ change. change ≡ self.now) }
    {
        match self {
            Change::Keep => Ok(Change::Keep),
            Change::Put(node) => Ok(Change::Put(node.copy(alloc)?)),
            Change::Cut => Ok(Change::Cut),
        }
    }
}
