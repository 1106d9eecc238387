ghost use Rattle.std.specs.Prelude.{◌≡◌, ◌<◌, IfOk, MatchBool, MatchOption};
ghost use Rattle.nuc_base.specs.Changes.{FitsChange, IsLegal};
ghost use Rattle.nuc_base.specs.Trees.{OneKind, WellFormed};
ghost use Rattle.nuc_class.specs.Due.{FitsOp, IsDue, IsLegalOp, NothingDue};

use crate::{Op, operation, wish};
use nuc_base::{Change, Hashes, NodeId, TreeLike};
use std::alloc::{AllocError, Global};

/// The operation that `id` wishes, where it can be carried out as the trees are.
pub fn due<T: TreeLike, H: Hashes>(
    alloc: Global,
    r: &T,
    l: &T,
    s: &T,
    h: &H,
    id: NodeId,
) -> Result<Option<Op>, AllocError>
    requires remote { WellFormed (T.nodes r.now) }
    requires local { WellFormed (T.nodes l.now) }
    requires synced { WellFormed (T.nodes s.now) }
    requires kinds { OneKind (T.nodes r.now) (T.nodes l.now) }
    requires id { 0 < id.0 }
    ensures { IfOk result (λ due. MatchOption due (NothingDue (H.same h.now) (T.nodes r.now) (T.nodes l.now) (T.nodes s.now) id.0) (IsDue (H.same h.now) (T.nodes r.now) (T.nodes l.now) (T.nodes s.now) id.0)) }
{
    let wish = wish(r, l, s, h, id);
    let Some(op) = operation(alloc, wish, id, r.get(id), l.get(id), s.get(id), h)? else {
        return Ok(None);
    };
    if is_legal(r, l, s, &op) {
        Ok(Some(op))
    } else {
        Ok(None)
    }
}

/// Whether an operation's change is legal in each tree.
pub fn is_legal<T: TreeLike>(r: &T, l: &T, s: &T, op: &Op) -> bool
    requires remote { WellFormed (T.nodes r.now) }
    requires local { WellFormed (T.nodes l.now) }
    requires synced { WellFormed (T.nodes s.now) }
    requires id { 0 < op.now.id.0 }
    requires fits { FitsOp op.now }
    ensures { MatchBool result (IsLegalOp (T.nodes r.now) (T.nodes l.now) (T.nodes s.now) op.now) (¬ (IsLegalOp (T.nodes r.now) (T.nodes l.now) (T.nodes s.now) op.now)) }
{
    is_legal_in(r, op.id, &op.remote)
        && is_legal_in(l, op.id, &op.local)
        && is_legal_in(s, op.id, &op.synced)
}

/// Whether a change of one identity is legal in a tree. It takes a fixed number of calls of the tree, besides a walk up
/// from the new parent.
pub fn is_legal_in<T: TreeLike>(tree: &T, id: NodeId, change: &Change) -> bool
    requires form { WellFormed (T.nodes tree.now) }
    requires id { 0 < id.0 }
    requires fits { FitsChange change.now }
    ensures { MatchBool result (IsLegal (T.nodes tree.now) id.0 change.now) (¬ (IsLegal (T.nodes tree.now) id.0 change.now)) }
{
    match change {
        Change::Keep => true,
        Change::Put(node) => tree.check_put(id, node).is_ok(),
        Change::Cut => tree.get(id).is_some() && !tree.has_child(id),
    }
}
