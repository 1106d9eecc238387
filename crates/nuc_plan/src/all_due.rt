ghost use Rattle.std.specs.Prelude.{IfOk};
ghost use Rattle.nuc_base.specs.Trees.{OneKind, WellFormed};
ghost use Rattle.nuc_plan.specs.Walk.{IsFound};

use crate::walk::Walk;
use nuc_base::{Hashes, TreeLike};
use nuc_class::{Effect, Op, due};
use std::alloc::{AllocError, Global};

/// What is due, as far as a plan asks for it.
#[derive(Drop)]
pub(crate) enum Found {
    /// The record step of the least identity that has one.
    RecordStep(Op),
    /// There is no record step, and these operations are due, in rising order of identity.
    Due(Vec<Op>),
}

/// Looks at all identities for what is due, up to the first record step.
pub(crate) fn all_due<T: TreeLike, H: Hashes>(
    alloc: Global,
    r: &T,
    l: &T,
    s: &T,
    h: &H,
) -> Result<Found, AllocError>
    requires remote { WellFormed (T.nodes r.now) }
    requires local { WellFormed (T.nodes l.now) }
    requires synced { WellFormed (T.nodes s.now) }
    requires kinds { OneKind (T.nodes r.now) (T.nodes l.now) }
    ensures { IfOk result (IsFound (H.same h.now) (T.nodes r.now) (T.nodes l.now) (T.nodes s.now)) }
{
    let mut ops = Vec::new(alloc);
    let mut walk = Walk::new();
    while let Some(id) = walk.next(r, l, s) {
        if let Some(op) = due(alloc, r, l, s, h, id)? {
            if op.effect == Effect::Nothing {
                return Ok(Found::RecordStep(op));
            }
            ops.push(op)?;
        }
    }
    Ok(Found::Due(ops))
}
