ghost use Rattle.std.specs.Prelude.{◌≡◌, ◌<◌, Some, IfOk, filter, length, slice_get};
ghost use Rattle.std.specs.FinMap as map;
ghost use Rattle.nuc_step.specs.Scanning as scanning;
ghost use Rattle.nuc_step.specs.Scanning.{is_absent, is_other};

use nuc_base::{NodeId, TreeLike};
use nuc_class::value_eq;
use std::alloc::AllocError;

/// How many identities have another value in the second tree than in the first. Where that can't be counted, it counts as
/// want of memory.
pub(crate) fn changed_count<T: TreeLike>(before: &T, after: &T) -> Result<u64, AllocError>
    ensures { IfOk result (λ count. count ≡ scanning.changed_count (T.nodes before.now) (T.nodes after.now)) }
{
    let others = other_count(before, after);
    others
        .checked_add(new_count(before, after))
        .ok_or(AllocError)
}

/// How many identities of the first have another value in the second.
fn other_count<T: TreeLike>(before: &T, after: &T) -> u64
    ensures { result ≡ length (filter (is_other (T.nodes before.now) (T.nodes after.now)) (map.keys (T.nodes before.now))) }
{
    let mut count = 0;
    for i in 0..before.len() {
        let id = nth(before, i);
        if is_other(before, after, id) {
            count += 1;
        }
    }
    count
}

/// How many identities of the second aren't in the first.
fn new_count<T: TreeLike>(before: &T, after: &T) -> u64
    ensures { result ≡ length (filter (is_absent (T.nodes before.now)) (map.keys (T.nodes after.now))) }
{
    let mut count = 0;
    for i in 0..after.len() {
        let id = nth(after, i);
        if is_absent(before, id) {
            count += 1;
        }
    }
    count
}

fn is_other<T: TreeLike>(before: &T, after: &T, id: NodeId) -> bool
    ensures { result ≡ is_other (T.nodes before.now) (T.nodes after.now) id.0 }
{
    !value_eq(before.get(id), after.get(id))
}

fn is_absent<T: TreeLike>(tree: &T, id: NodeId) -> bool
    ensures { result ≡ is_absent (T.nodes tree.now) id.0 }
{
    tree.get(id).is_none()
}

fn nth<T: TreeLike>(tree: &T, i: u64) -> NodeId
    requires { i < map.len (T.nodes tree.now) }
    ensures { slice_get (map.keys (T.nodes tree.now)) i ≡ Some result.0 }
{
    match tree.nth(i) {
        Some(id) => id,
        None => unreachable!(),
    }
}
