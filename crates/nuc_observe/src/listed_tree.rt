ghost use Rattle.std.specs.Prelude.{◌≡◌, IfOk};
ghost use Rattle.nuc_base.specs.Trees.{WellFormed};
ghost use Rattle.nuc_observe.specs.Made.{ComeInTurn, nodes_in};

use crate::ObservedNode;
use nuc_base::{TreeLike, put_legal};
use std::alloc::{AllocError, Global};

/// The tree of nodes each of which can be put where those before it stand, as those of a good listing can in its order.
pub fn tree_of<T: TreeLike + Drop>(alloc: Global, nodes: &[ObservedNode]) -> Result<T, AllocError>
    requires { ComeInTurn nodes.now }
    ensures nodes { IfOk result (λ tree. T.nodes tree ≡ nodes_in nodes.now) }
    ensures form { IfOk result (λ tree. WellFormed (T.nodes tree)) }
{
    let mut tree = T::empty(alloc)?;
    for next in nodes {
        put_legal(&mut tree, next.id, next.node.copy(alloc)?)?;
    }
    Ok(tree)
}
