ghost use Rattle.std.specs.Prelude.{◌≡◌, ◌≤◌, ◌<◌, ◌+◌, Some, IfOk, OnOk, OnErr};
ghost use Rattle.std.specs.FinMap as map;
ghost use Rattle.nuc_base.specs.Kinds.{FitsKind};
ghost use Rattle.nuc_base.specs.Legal.{LegalPut, LegalCut};
ghost use Rattle.nuc_base.specs.Trees.{WellFormed};
ghost use Rattle.nuc_undo.specs.Undo.{IsUndoable, TakesBack, id_of, owed, undone};

use nuc_base::{Node, NodeId, TreeLike, cut_legal, put_legal};
use std::alloc::AllocError;

/// How a change of a tree is taken back.
#[derive(Debug, Drop)]
pub enum Undo {
    /// By a cut: the identity was new.
    Remove(NodeId),
    /// By the node before, in place of the one that was put.
    Replace(NodeId, Node),
    /// By the node before, which was cut.
    Restore(NodeId, Node),
}

/// A change that was made.
#[derive(Drop)]
pub struct Step {
    pub undo: Undo,
    /// The number that the node that it put was laid by under; none where it didn't come from the stock.
    pub number: Option<u64>,
}

impl Undo {
    /// The room that the tree keeps for it.
    pub fn owed(&self) -> u64
        ensures { result ≡ owed self.now }
    {
        match self {
            Undo::Remove(_) => 0,
            Undo::Replace(_, _) => 1,
            Undo::Restore(_, _) => 2,
        }
    }
}

/// Puts a node that is known to be legal, and says how that is taken back.
pub fn put_undoable<T: TreeLike>(tree: &mut T, id: NodeId, node: Node) -> Result<Undo, AllocError>
    requires form { WellFormed (T.nodes tree.old) }
    requires id { 0 < id.0 }
    requires fits { FitsKind node }
    requires legal { LegalPut (T.nodes tree.old) id.0 node }
    ensures form { WellFormed (T.nodes tree.new) }
    ensures ok { OnOk result (T.nodes tree.new ≡ map.insert (T.nodes tree.old) id.0 node) }
    ensures undo { IfOk result (TakesBack (T.nodes tree.old) (T.nodes tree.new) id.0) }
    ensures room { IfOk result (λ u. T.spare tree.old + owed u ≤ T.spare tree.new + 1) }
    ensures err { OnErr result (T.nodes tree.new ≡ T.nodes tree.old) }
    ensures memory { OnErr result (T.spare tree.old ≡ 0) }
    ensures room_err { OnErr result (T.spare tree.old ≤ T.spare tree.new) }
{
    match put_legal(tree, id, node)? {
        Some(before) => Ok(Undo::Replace(id, before)),
        None => Ok(Undo::Remove(id)),
    }
}

/// Cuts a node that is known to be there without children, and says how that is taken back.
pub fn cut_undoable<T: TreeLike>(tree: &mut T, id: NodeId) -> Undo
    requires form { WellFormed (T.nodes tree.old) }
    requires legal { LegalCut (T.nodes tree.old) id.0 }
    ensures form { WellFormed (T.nodes tree.new) }
    ensures cut { T.nodes tree.new ≡ map.remove (T.nodes tree.old) id.0 }
    ensures undo { TakesBack (T.nodes tree.old) (T.nodes tree.new) id.0 result }
    ensures room { T.spare tree.old + owed result ≤ T.spare tree.new + 1 }
{
    Undo::Restore(id, cut_legal(tree, id))
}

/// Takes a change back, and hands over the node that it had put, if it was a put. It wants no memory where the room
/// that is owed is there.
pub fn take_back<T: TreeLike>(tree: &mut T, undo: Undo) -> Option<Node>
    requires form { WellFormed (T.nodes tree.old) }
    requires undoable { IsUndoable (T.nodes tree.old) undo }
    requires room { owed undo ≤ T.spare tree.old }
    ensures form { WellFormed (T.nodes tree.new) }
    ensures nodes { T.nodes tree.new ≡ undone (T.nodes tree.old) undo }
    ensures node { result ≡ map.get (T.nodes tree.old) (id_of undo) }
    ensures room { T.spare tree.old + 1 ≤ T.spare tree.new + owed undo }
{
    match undo {
        Undo::Remove(id) => Some(cut_legal(tree, id)),
        Undo::Replace(id, node) | Undo::Restore(id, node) => match put_legal(tree, id, node) {
            Ok(put) => put,
            Err(_) => unreachable!(),
        },
    }
}
