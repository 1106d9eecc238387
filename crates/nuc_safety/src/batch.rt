ghost use Rattle.std.specs.Prelude.{◌≡◌, ◌≤◌, [], length, All, IfOk, MatchBool};
ghost use Rattle.nuc_base.specs.Trees.{WellFormed};
ghost use Rattle.nuc_safety.specs.Batch.{InEveryOrder, IsBatch, IsPossible};
ghost use Rattle.nuc_safety.specs.FirstFit.{EachIsSettled, FirstFit, IsPartOf, Joins, StaysOut, most_in_batch};

use crate::together;
use nuc_base::TreeLike;
use nuc_class::Op;
use sqlite_items::Items;
use std::alloc::{AllocError, Global};

/// How many operations a batch has at most.
const MOST_IN_BATCH: usize = 32;

/// The batch of the operations that are due: the first of them, in their order, each taken where it is together with all
/// taken before it, until the batch is full. It takes as long as `MOST_IN_BATCH` calls of `together` for each of them.
///
/// Mends are alone in flight, and aren't offered to a batch.
pub fn first_fit<T: TreeLike>(
    alloc: Global,
    r: &T,
    l: &T,
    s: &T,
    due: Vec<Op>,
) -> Result<Items<Op>, AllocError>
    requires remote { WellFormed (T.nodes r.now) }
    requires local { WellFormed (T.nodes l.now) }
    requires synced { WellFormed (T.nodes s.now) }
    requires due { All (IsPossible (T.nodes r.now) (T.nodes l.now) (T.nodes s.now)) due.items }
    ensures first_fit { IfOk result (FirstFit (T.nodes r.now) (T.nodes l.now) (T.nodes s.now) due.items) }
    ensures batch { IfOk result (IsBatch (T.nodes r.now) (T.nodes l.now) (T.nodes s.now)) }
    ensures orders { IfOk result (InEveryOrder (T.nodes r.now) (T.nodes l.now) (T.nodes s.now)) }
    ensures settled { IfOk result (EachIsSettled (T.nodes r.now) (T.nodes l.now) (T.nodes s.now) due.items) }
    ensures part { IfOk result (λ batch. IsPartOf batch due.items) }
    ensures few { IfOk result (λ batch. length batch ≤ most_in_batch) }
    ensures some { IfOk result (λ batch. batch ≡ [] → due.items ≡ []) }
{
    let mut taken = Items::new(alloc);
    for op in due {
        if joins(r, l, s, taken.as_slice(), &op) {
            taken.push(op)?;
        }
    }
    Ok(taken)
}

/// Whether a batch that has taken these takes the operation.
fn joins<T: TreeLike>(r: &T, l: &T, s: &T, taken: &[Op], op: &Op) -> bool
    ensures { MatchBool result (Joins (T.nodes r.now) (T.nodes l.now) (T.nodes s.now) taken.now op.now) (StaysOut (T.nodes r.now) (T.nodes l.now) (T.nodes s.now) taken.now op.now) }
{
    taken.len() < MOST_IN_BATCH && taken.iter().all(|other| together(r, l, s, other, op))
}
