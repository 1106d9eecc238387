ghost use Rattle.std.specs.Prelude.{◌≡◌, ◌<◌, ◌≤◌, ◌+◌, Some, IfOk, OnOk, OnErr};
ghost use Rattle.std.specs.FinMap as map;
ghost use Rattle.nuc_base.specs.Kinds.{FitsKind};
ghost use Rattle.nuc_base.specs.Legal.{LegalPut, LegalCut};
ghost use Rattle.nuc_base.specs.Room.{room_for};
ghost use Rattle.nuc_base.specs.Trees.{WellFormed};

use crate::{CutFault, Node, NodeId, PutFault, TreeLike};
use std::alloc::AllocError;

/// Puts a node that is known to be legal, and hands over the one before: only memory can be wanted.
pub fn put_legal<T: TreeLike>(
    tree: &mut T,
    id: NodeId,
    node: Node,
) -> Result<Option<Node>, AllocError>
    requires form { WellFormed (T.nodes tree.old) }
    requires id { 0 < id.0 }
    requires fits { FitsKind node }
    requires legal { LegalPut (T.nodes tree.old) id.0 node }
    ensures form { WellFormed (T.nodes tree.new) }
    ensures put { OnOk result (T.nodes tree.new ≡ map.insert (T.nodes tree.old) id.0 node) }
    ensures before { IfOk result (λ before. before ≡ map.get (T.nodes tree.old) id.0) }
    ensures err { OnErr result (T.nodes tree.new ≡ T.nodes tree.old) }
    ensures memory { OnErr result (T.spare tree.old ≡ 0) }
    ensures spare { OnOk result (T.spare tree.old ≤ T.spare tree.new + room_for (map.get (T.nodes tree.old) id.0)) }
    ensures spare_err { OnErr result (T.spare tree.old ≤ T.spare tree.new) }
{
    match tree.put(id, node) {
        Ok(before) => Ok(before),
        Err(PutFault::Memory) => Err(AllocError),
        Err(PutFault::KindChanged | PutFault::NoParent | PutFault::Taken(_) | PutFault::Cycle) => {
            unreachable!()
        }
    }
}

/// Cuts a node that is known to be there without children, and hands it over.
pub fn cut_legal<T: TreeLike>(tree: &mut T, id: NodeId) -> Node
    requires legal { LegalCut (T.nodes tree.old) id.0 }
    ensures node { map.get (T.nodes tree.old) id.0 ≡ Some result }
    ensures cut { T.nodes tree.new ≡ map.remove (T.nodes tree.old) id.0 }
    ensures form { WellFormed (T.nodes tree.old) → WellFormed (T.nodes tree.new) }
    ensures freed { T.spare tree.old < T.spare tree.new }
{
    match tree.cut(id) {
        Ok(node) => node,
        Err(CutFault::Absent | CutFault::NotEmpty) => unreachable!(),
    }
}
