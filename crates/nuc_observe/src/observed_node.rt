ghost use Rattle.std.specs.Prelude.{◌≡◌, IfOk};

use nuc_base::{Node, NodeId};
use std::alloc::{AllocError, Global};

/// A node of the new Local, and whose it is.
#[derive(Debug, Drop)]
pub struct ObservedNode {
    pub id: NodeId,
    pub node: Node,
}

impl ObservedNode {
    /// The same node, with a name in memory of its own.
    pub fn copy(&self, alloc: Global) -> Result<ObservedNode, AllocError>
        ensures { IfOk result (λ n. n ≡ self.now) }
    {
        let node = self.node.copy(alloc)?;
        Ok(ObservedNode { id: self.id, node })
    }
}
