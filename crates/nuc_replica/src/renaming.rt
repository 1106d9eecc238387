ghost use Rattle.std.specs.Prelude.{◌≡◌, ◌≤◌, ◌<◌, ◌+◌, All, IfOk, length, map, reverse};
ghost use Rattle.std.specs.FinMap as nodes;
ghost use Rattle.nuc_base.specs.Kinds.{FitsKind};
ghost use Rattle.nuc_base.specs.Legal.{LegalCut, LegalPut};
ghost use Rattle.nuc_base.specs.Ready.{LegalInTurn, all_changed};
ghost use Rattle.nuc_base.specs.Renamed.{IsRenamed};
ghost use Rattle.nuc_base.specs.Trees.{IsThere, WellFormed};
ghost use Rattle.nuc_replica.specs.Renaming.{IsReady, IsRenaming, Rewritten, change_of, move_of, moves_of};

use nuc_base::{Name, Node, NodeId, Place, TreeLike};
use nuc_undo::UndoTree;
use std::alloc::{AllocError, Global};

/// A child of an identity that gets another number, and the node that it is to have.
#[derive(Drop)]
pub struct Moved {
    id: NodeId,
    node: Node,
}

/// The nodes that change when an identity of a tree gets another number.
#[derive(Drop)]
pub struct Renaming {
    /// The node of the old number, in a place beside its own.
    pub aside: Node,
    /// Those of its children, below the new number.
    pub children: Vec<Moved>,
}

/// Copies all nodes that are to be changed where `to` comes in place of `id`, which is put aside under this name.
pub fn nodes_renamed<T: TreeLike>(
    alloc: Global,
    tree: &T,
    id: NodeId,
    to: NodeId,
    aside: Name,
) -> Result<Renaming, AllocError>
    requires { IsThere (T.nodes tree.now) id.0 }
    ensures { IfOk result (IsRenaming (T.nodes tree.now) id.0 to.0 aside) }
{
    let Some(node) = tree.get(id) else {
        unreachable!()
    };
    let parent = node.place.parent;
    Ok(Renaming {
        aside: node.moved_to(Place {
            parent,
            name: aside,
        }),
        children: moved_children(alloc, tree, id, to)?,
    })
}

/// Copies of the nodes of the children of an identity, below another one.
fn moved_children<T: TreeLike>(
    alloc: Global,
    tree: &T,
    from: NodeId,
    to: NodeId,
) -> Result<Vec<Moved>, AllocError>
    ensures { IfOk result (λ moves. map change_of moves.items ≡ moves_of (T.nodes tree.now) from.0 to.0) }
{
    let mut moves = Vec::new(alloc);
    while let Some(id) = tree.child(from, moves.len() as u64) {
        moves.push(moved_below(alloc, tree, id, to)?)?;
    }
    Ok(moves)
}

/// A copy of the node of a child, below another parent.
fn moved_below<T: TreeLike>(
    alloc: Global,
    tree: &T,
    id: NodeId,
    to: NodeId,
) -> Result<Moved, AllocError>
    requires { IsThere (T.nodes tree.now) id.0 }
    ensures { IfOk result (λ moved. change_of moved ≡ (id.0, move_of to.0 (nodes.get (T.nodes tree.now) id.0))) }
{
    let Some(node) = tree.get(id) else {
        unreachable!()
    };
    let name = node.place.name.copy(alloc)?;
    Ok(Moved {
        id,
        node: node.moved_to(Place { parent: to, name }),
    })
}

/// Lets `to` come in place of `id`, with this node: `id` goes aside, `to` comes, the children move below it, and `id` goes.
/// It takes no memory.
pub fn rename<T: TreeLike>(
    tree: &mut UndoTree<T>,
    id: NodeId,
    to: NodeId,
    node: Node,
    nodes: Renaming,
)
    requires form { WellFormed tree.old.now }
    requires ready { IsReady tree.old.now id.0 to.0 node nodes }
    requires room { length nodes.children.items + 3 ≤ tree.old.spare }
    ensures now { IsRenamed tree.old.now id.0 to.0 node tree.new.now }
    ensures rewritten { Rewritten (length nodes.children.items + 3) tree.old tree.new }
    ensures form { WellFormed tree.new.now }
{
    put_one(tree, id, nodes.aside);
    put_one(tree, to, node);
    put_all(tree, nodes.children);
    cut_one(tree, id);
}

/// Puts nodes that are known to be legal, the last first, where there is room for them.
fn put_all<T: TreeLike>(tree: &mut UndoTree<T>, moves: Vec<Moved>)
    requires some { All (λ moved. 0 < moved.id.0) moves.items }
    requires fits { All (λ moved. FitsKind moved.node) moves.items }
    requires legal { LegalInTurn tree.old.now (reverse (map change_of moves.items)) }
    requires room { length moves.items ≤ tree.old.spare }
    ensures now { tree.new.now ≡ all_changed tree.old.now (reverse (map change_of moves.items)) }
    ensures rewritten { Rewritten (length moves.items) tree.old tree.new }
{
    let mut moves = moves;
    while let Some(moved) = moves.pop() {
        put_one(tree, moved.id, moved.node);
    }
}

/// Puts a node that is known to be legal, where there is room for it.
fn put_one<T: TreeLike>(tree: &mut UndoTree<T>, id: NodeId, node: Node)
    requires some { 0 < id.0 }
    requires fits { FitsKind node }
    requires legal { LegalPut tree.old.now id.0 node }
    requires room { 0 < tree.old.spare }
    ensures now { tree.new.now ≡ nodes.insert tree.old.now id.0 node }
    ensures rewritten { Rewritten 1 tree.old tree.new }
    ensures form { WellFormed tree.new.now }
{
    let Ok(()) = tree.put(id, node) else {
        unreachable!()
    };
}

/// Cuts a node that is known to be there without children, where there is room to note that.
fn cut_one<T: TreeLike>(tree: &mut UndoTree<T>, id: NodeId)
    requires legal { LegalCut tree.old.now id.0 }
    requires room { 0 < tree.old.spare }
    ensures now { tree.new.now ≡ nodes.remove tree.old.now id.0 }
    ensures rewritten { Rewritten 1 tree.old tree.new }
    ensures form { WellFormed tree.new.now }
{
    let Ok(()) = tree.cut(id) else { unreachable!() };
}
