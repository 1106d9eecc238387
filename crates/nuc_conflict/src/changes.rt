ghost use Rattle.std.specs.Prelude.{◌≡◌, IfOk, MatchBool};
ghost use Rattle.std.specs.Option.{option_copied};
ghost use Rattle.nuc_base.specs.SamePlace.{SamePlace};
ghost use Rattle.nuc_conflict.specs.Mends as mends;

use nuc_base::{Change, Node, Place};
use std::alloc::{AllocError, Global};

/// What stands there goes.
pub(crate) fn cut_of(node: Option<&Node>) -> Change
    ensures { result ≡ mends.cut_of (option_copied node.entry) }
{
    match node {
        Some(_) => Change::Cut,
        None => Change::Keep,
    }
}

/// A node that has the one place comes to the other.
pub(crate) fn leaving(
    alloc: Global,
    node: Option<&Node>,
    from: &Place,
    to: &Place,
) -> Result<Change, AllocError>
    ensures { IfOk result (mends.LeavesFor from.now to.now (option_copied node.entry)) }
{
    match node {
        Some(node) if is_same_place(&node.place, from) => {
            Ok(Change::Put(node.moved_to(to.copy(alloc)?)))
        }
        _ => Ok(Change::Keep),
    }
}

fn is_same_place(a: &Place, b: &Place) -> bool
    ensures { MatchBool result (SamePlace a.now b.now) (¬ (SamePlace a.now b.now)) }
{
    a.parent == b.parent && a.name.same(&b.name)
}

/// The same value, with a name in memory of its own.
pub(crate) fn copy_of(alloc: Global, node: Option<&Node>) -> Result<Option<Node>, AllocError>
    ensures { IfOk result (λ copy. copy ≡ option_copied node.entry) }
{
    match node {
        Some(node) => Ok(Some(node.copy(alloc)?)),
        None => Ok(None),
    }
}

/// The node with another bit.
pub(crate) fn with_bit(node: Node, bit: bool) -> Node
    ensures { result ≡ record node { bit = bit } }
{
    Node {
        place: node.place,
        kind: node.kind,
        ver: node.ver,
        bit,
    }
}
