ghost use Rattle.std.specs.Prelude.{◌≡◌, ◌+◌, IfOk, MatchBool};
ghost use Rattle.std.specs.FinMap as map;
ghost use Rattle.nuc_conflict.specs.FreeName.{IsFreeName, IsUnused, place_of};

use nuc_base::{Name, NodeId, TreeLike};
use std::alloc::{AllocError, Global};

/// The name for a copy of what has this name below this parent: the first of its candidates whose place nobody has in
/// Remote, Local or Synced. It takes a call of each tree for a candidate that is tried, and tries one for each copy that
/// has been made there already. More nodes than a `u64` counts are want of memory.
pub fn free_name<T: TreeLike>(
    alloc: Global,
    r: &T,
    l: &T,
    s: &T,
    parent: NodeId,
    name: &Name,
) -> Result<Name, AllocError>
    ensures { IfOk result (λ free. IsFreeName (T.nodes r.now) (T.nodes l.now) (T.nodes s.now) parent.0 name.now free) }
{
    for tried in 0..most_tries(r, l, s)? {
        let copy = name.conflicted_copy(alloc, tried + 1)?;
        if is_unused(r, l, s, parent, &copy) {
            return Ok(copy);
        }
    }
    unreachable!()
}

/// One more than the nodes of the three trees: of so many candidates one is free.
fn most_tries<T: TreeLike>(r: &T, l: &T, s: &T) -> Result<u64, AllocError>
    ensures { IfOk result (λ most. most ≡ map.len (T.nodes r.now) + map.len (T.nodes l.now) + map.len (T.nodes s.now) + 1) }
{
    let both = r.len().checked_add(l.len()).ok_or(AllocError)?;
    let all = both.checked_add(s.len()).ok_or(AllocError)?;
    all.checked_add(1).ok_or(AllocError)
}

/// Whether nobody has the place in any of the trees.
fn is_unused<T: TreeLike>(r: &T, l: &T, s: &T, parent: NodeId, name: &Name) -> bool
    ensures { MatchBool result (IsUnused (T.nodes r.now) (T.nodes l.now) (T.nodes s.now) (place_of parent.0 name.now)) (¬ (IsUnused (T.nodes r.now) (T.nodes l.now) (T.nodes s.now) (place_of parent.0 name.now))) }
{
    r.at(parent, name).is_none() && l.at(parent, name).is_none() && s.at(parent, name).is_none()
}
