ghost use Rattle.std.specs.Prelude.{◌≡◌, ◌↔◌, [], IfOk};
ghost use Rattle.nuc_base.specs.Trees.{OneKind, WellFormed};
ghost use Rattle.nuc_plan.specs.Plans.{IsPlan, operations};

use crate::Plan;
use crate::all_due::{Found, all_due};
use nuc_base::{Hashes, NodeId, TreeLike};
use nuc_conflict::mend;
use nuc_safety::first_fit;
use std::alloc::{AllocError, Global};

/// The plan of Remote, Local and Synced. A split takes `next` for its new identity, so that has to be a number which no
/// identity of the trees has.
///
/// It asks each identity for its wish, and where nothing is due at most twice more for the mend. It copies the nodes that
/// its operations name, and those of the operations that are due and for which a batch has no room.
pub fn plan<T: TreeLike, H: Hashes>(
    alloc: Global,
    r: &T,
    l: &T,
    s: &T,
    h: &H,
    next: NodeId,
) -> Result<Plan, AllocError>
    requires remote { WellFormed (T.nodes r.now) }
    requires local { WellFormed (T.nodes l.now) }
    requires synced { WellFormed (T.nodes s.now) }
    requires remote_local { OneKind (T.nodes r.now) (T.nodes l.now) }
    requires remote_synced { OneKind (T.nodes r.now) (T.nodes s.now) }
    requires local_synced { OneKind (T.nodes l.now) (T.nodes s.now) }
    ensures plan { IfOk result (IsPlan (H.same h.now) (T.nodes r.now) (T.nodes l.now) (T.nodes s.now) next.0) }
    ensures empty { IfOk result (λ p. (p ≡ Plan.Empty) ↔ ((T.nodes r.now ≡ T.nodes l.now) × (T.nodes l.now ≡ T.nodes s.now))) }
    ensures some { IfOk result (λ p. operations p ≡ [] → p ≡ Plan.Empty) }
{
    let due = match all_due(alloc, r, l, s, h)? {
        Found::RecordStep(op) => return Ok(Plan::Booked(op)),
        Found::Due(due) => due,
    };
    if !due.is_empty() {
        return Ok(Plan::Batch(first_fit(alloc, r, l, s, due)?));
    }
    // Only where the trees are equal is there neither something due nor a mend.
    match mend(alloc, r, l, s, h, next)? {
        Some(op) => Ok(Plan::Mend(op)),
        None => Ok(Plan::Empty),
    }
}
