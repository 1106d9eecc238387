ghost use Rattle.std.specs.Prelude.{◌≡◌, ◌<◌, ◌≤◌, ◌+◌, ℕ, Some, IfSome, IsSomeAnd, MatchBool, MatchOption, slice_get};
ghost use Rattle.std.specs.FinMap as map;
ghost use Rattle.nuc_base.specs.Trees.{IsThere, Steps, WellFormed};
ghost use Rattle.nuc_class.specs.Wishes.{IsWish};
ghost use Rattle.nuc_conflict.specs.Search.{IsTopmostSoFar, IsTopmostThere};
ghost use Rattle.nuc_conflict.specs.Topmost.{IsLeastSplit, NoSplit};

use nuc_base::{Hashes, NodeId, TreeLike};
use nuc_class::{Wish, needs_split, wish};

/// The least identity that needs a split.
pub(crate) fn least_split<T: TreeLike, H: Hashes>(r: &T, l: &T, s: &T, h: &H) -> Option<NodeId>
    ensures { MatchOption result (NoSplit (H.same h.now) (T.nodes r.now) (T.nodes l.now) (T.nodes s.now)) (λ x. IsLeastSplit (H.same h.now) (T.nodes r.now) (T.nodes l.now) (T.nodes s.now) x.0) }
{
    for i in 0..r.len() {
        let Some(id) = r.nth(i) else {
            return None;
        };
        if needs_split(r.get(id), l.get(id), s.get(id), h) {
            return Some(id);
        }
    }
    None
}

/// Of the identities of a tree that wish this, the one that stands least deep there, and of those the least.
pub(crate) fn topmost<T: TreeLike, H: Hashes>(
    tree: &T,
    r: &T,
    l: &T,
    s: &T,
    h: &H,
    wanted: Wish,
) -> Option<NodeId>
    requires tree { WellFormed (T.nodes tree.now) }
    requires remote { WellFormed (T.nodes r.now) }
    requires local { WellFormed (T.nodes l.now) }
    ensures { MatchOption result ((x : ℕ) → IsThere (T.nodes tree.now) x → ¬ (IsWish (H.same h.now) (T.nodes r.now) (T.nodes l.now) (T.nodes s.now) x wanted)) (λ x. IsTopmostThere (H.same h.now) (T.nodes r.now) (T.nodes l.now) (T.nodes s.now) (T.nodes tree.now) wanted x.0) }
{
    let mut best = None;
    for i in 0..tree.len() {
        let Some(id) = tree.nth(i) else {
            return None;
        };
        best = consider(tree, r, l, s, h, wanted, best, i, id);
    }
    match best {
        Some(found) => Some(found.id),
        None => None,
    }
}

/// An identity, and how deep it stands.
#[derive(Clone, Copy)]
pub(crate) struct Found {
    id: NodeId,
    depth: u64,
}

/// The topmost so far, with the identity at position `i`.
fn consider<T: TreeLike, H: Hashes>(
    tree: &T,
    r: &T,
    l: &T,
    s: &T,
    h: &H,
    wanted: Wish,
    best: Option<Found>,
    i: u64,
    id: NodeId,
) -> Option<Found>
    requires tree { WellFormed (T.nodes tree.now) }
    requires remote { WellFormed (T.nodes r.now) }
    requires local { WellFormed (T.nodes l.now) }
    requires at { slice_get (map.keys (T.nodes tree.now)) i ≡ Some id.0 }
    requires so_far { IsTopmostSoFar (H.same h.now) (T.nodes r.now) (T.nodes l.now) (T.nodes s.now) (T.nodes tree.now) wanted i best }
    ensures { IsTopmostSoFar (H.same h.now) (T.nodes r.now) (T.nodes l.now) (T.nodes s.now) (T.nodes tree.now) wanted (i + 1) result }
{
    if !wishes(r, l, s, h, id, wanted) {
        return best;
    }
    let depth = depth_of(tree, id);
    if is_as_high(best, depth) {
        best
    } else {
        Some(Found { id, depth })
    }
}

fn wishes<T: TreeLike, H: Hashes>(r: &T, l: &T, s: &T, h: &H, id: NodeId, wanted: Wish) -> bool
    requires remote { WellFormed (T.nodes r.now) }
    requires local { WellFormed (T.nodes l.now) }
    ensures { MatchBool result (IsWish (H.same h.now) (T.nodes r.now) (T.nodes l.now) (T.nodes s.now) id.0 wanted) (¬ (IsWish (H.same h.now) (T.nodes r.now) (T.nodes l.now) (T.nodes s.now) id.0 wanted)) }
{
    wish(r, l, s, h, id) == wanted
}

/// Whether one was found that stands no deeper than this.
fn is_as_high(best: Option<Found>, depth: u64) -> bool
    ensures { MatchBool result (IsSomeAnd best (λ found. found.depth ≤ depth)) (IfSome best (λ found. depth < found.depth)) }
{
    match best {
        Some(found) => found.depth <= depth,
        None => false,
    }
}

/// How many steps lead from a node to the root.
fn depth_of<T: TreeLike>(tree: &T, id: NodeId) -> u64
    requires tree { WellFormed (T.nodes tree.now) }
    requires there { IsThere (T.nodes tree.now) id.0 }
    ensures { Steps (T.nodes tree.now) 0 id.0 result }
{
    let mut at = id;
    for depth in 0..tree.len() {
        match tree.get(at) {
            Some(node) => at = node.place.parent,
            None => return depth,
        }
    }
    tree.len()
}
