ghost use Rattle.std.specs.Prelude.{◌≡◌, ◌≤◌, ◌<◌, ◌+◌, IfOk, OnOk, OnErr};
ghost use Rattle.nuc_base.specs.Trees.{WellFormed};
ghost use Rattle.nuc_journal.specs.Entries.{with_value};
ghost use Rattle.nuc_journal.specs.Journal.{IsLegalValue};
ghost use Rattle.nuc_server.specs.Undo.{IsUndoable, TakesBack, undone};

use nuc_base::{Node, NodeId, TreeLike, cut_legal, put_legal};
use std::alloc::AllocError;

/// How a change of a tree is taken back.
#[derive(Debug, Drop)]
pub enum Undo {
    /// By a cut: the identity was new.
    Remove(NodeId),
    /// By the node before, in place of the one that was put.
    Replace(NodeId, Node),
    /// By the node before, which was cut.
    Restore(NodeId, Node),
}

/// Gives an identity a value, none to delete it, where that is legal, and says how it is taken back.
pub fn change<T: TreeLike>(
    tree: &mut T,
    id: NodeId,
    value: Option<Node>,
) -> Result<Undo, AllocError>
    requires form { WellFormed (T.nodes tree.old) }
    requires id { 0 < id.0 }
    requires legal { IsLegalValue (T.nodes tree.old) id.0 value }
    ensures form { WellFormed (T.nodes tree.new) }
    ensures ok { OnOk result (T.nodes tree.new ≡ with_value (T.nodes tree.old) id.0 value) }
    ensures undo { IfOk result (TakesBack (T.nodes tree.old) id.0 value) }
    ensures err { OnErr result (T.nodes tree.new ≡ T.nodes tree.old) }
    ensures memory { OnErr result (T.spare tree.old ≡ 0) }
    ensures spare { T.spare tree.old ≤ T.spare tree.new + 1 }
{
    match value {
        Some(node) => match put_legal(tree, id, node)? {
            Some(before) => Ok(Undo::Replace(id, before)),
            None => Ok(Undo::Remove(id)),
        },
        None => Ok(Undo::Restore(id, cut_legal(tree, id))),
    }
}

/// Takes a change back. It wants no memory where there is room for one node.
pub fn take_back<T: TreeLike>(tree: &mut T, undo: Undo)
    requires form { WellFormed (T.nodes tree.old) }
    requires undoable { IsUndoable (T.nodes tree.old) undo }
    requires room { 0 < T.spare tree.old }
    ensures form { WellFormed (T.nodes tree.new) }
    ensures nodes { T.nodes tree.new ≡ undone (T.nodes tree.old) undo }
    ensures spare { T.spare tree.old ≤ T.spare tree.new + 1 }
{
    match undo {
        Undo::Remove(id) => {
            cut_legal(tree, id);
        }
        Undo::Replace(id, node) | Undo::Restore(id, node) => {
            if put_legal(tree, id, node).is_err() {
                unreachable!()
            }
        }
    }
}
