ghost use Rattle.nuc_base.specs.Kinds.{FitsKind};
ghost use Rattle.nuc_base.specs.Trees.{WellFormed};

use crate::fault::Fault;
use crate::layout::{self, FILES};
use nuc_base::{Node, NodeId, TreeLike, Ver};
use nuc_server::ServerTree;
use std::alloc::{AllocError, Global};

/// Puts the nodes of so many commits into a tree such as the server keeps, which is all that they do with its last tree.
pub(crate) fn tree(alloc: Global, count: u64) -> Result<String, Fault> {
    let mut tree = ServerTree::new(alloc);
    fill(alloc, &mut tree, count)?;
    let len = tree.len();
    Ok(format!(in alloc; "tree {len} nodes")?)
}

fn fill(alloc: Global, tree: &mut ServerTree, count: u64) -> Result<(), Fault>
    requires { WellFormed tree.old.nodes }
{
    let mut parent = NodeId(0);
    for number in 0..count {
        if number % FILES == 0 {
            parent = put(tree, layout::folder(alloc, number / FILES)?)?;
        }
        put(tree, layout::file(alloc, parent, number, Ver(number + 1))?)?;
    }
    Ok(())
}

/// Puts a node under the next identity. As in a commit, it is checked before.
fn put(tree: &mut ServerTree, node: Node) -> Result<NodeId, Fault>
    requires form { WellFormed tree.old.nodes }
    requires fits { FitsKind node }
    ensures { WellFormed tree.new.nodes }
{
    let id = NodeId(tree.len().checked_add(1).ok_or(AllocError)?);
    tree.check_put(id, &node)?;
    tree.put(id, node)?;
    Ok(id)
}
