ghost use Rattle.std.specs.Prelude.{◌≡◌, MatchBool};
ghost use Rattle.nuc_base.specs.Changes.{Apart, Moves, OtherPlaces, Spares};
ghost use Rattle.nuc_base.specs.SamePlace.{SamePlace};
ghost use Rattle.nuc_safety.specs.Together.{Together};

use nuc_base::{Change, NodeId, Place, TreeLike};
use nuc_class::Op;

/// Whether two operations may be in flight at once. It asks each tree for two nodes and two chains of parents at most.
///
/// It looks at what each does at its own identity. A mend that has a second one is alone in flight, and isn't asked for.
pub fn together<T: TreeLike>(r: &T, l: &T, s: &T, a: &Op, b: &Op) -> bool
    ensures { MatchBool result (Together (T.nodes r.now) (T.nodes l.now) (T.nodes s.now) a.now b.now) (¬ (Together (T.nodes r.now) (T.nodes l.now) (T.nodes s.now) a.now b.now)) }
{
    a.id != b.id
        && are_apart(r, a.id, &a.remote, b.id, &b.remote)
        && are_apart(l, a.id, &a.local, b.id, &b.local)
        && are_apart(s, a.id, &a.synced, b.id, &b.synced)
}

/// Whether the changes of `x` and `y` in one tree don't meet.
fn are_apart<T: TreeLike>(tree: &T, x: NodeId, c: &Change, y: NodeId, d: &Change) -> bool
    ensures { MatchBool result (Apart (T.nodes tree.now) x.0 c.now y.0 d.now) (¬ (Apart (T.nodes tree.now) x.0 c.now y.0 d.now)) }
{
    if !puts_elsewhere(c, d) {
        return false;
    }
    spares(tree, x, c, d) && spares(tree, y, d, c)
}

fn puts_elsewhere(c: &Change, d: &Change) -> bool
    ensures { MatchBool result (OtherPlaces c.now d.now) (¬ (OtherPlaces c.now d.now)) }
{
    match (c, d) {
        (Change::Put(n), Change::Put(k)) => !is_same_place(&n.place, &k.place),
        _ => true,
    }
}

fn is_same_place(p: &Place, q: &Place) -> bool
    ensures { MatchBool result (SamePlace p.now q.now) (¬ (SamePlace p.now q.now)) }
{
    p.parent == q.parent && p.name.same(&q.name)
}

/// Whether `d` puts nothing below `x`, or `c` doesn't move `x`.
fn spares<T: TreeLike>(tree: &T, x: NodeId, c: &Change, d: &Change) -> bool
    ensures { MatchBool result (Spares (T.nodes tree.now) x.0 c.now d.now) (¬ (Spares (T.nodes tree.now) x.0 c.now d.now)) }
{
    match d {
        Change::Put(node) => !moves(tree, x, c) || !tree.under(node.place.parent, x),
        Change::Keep | Change::Cut => true,
    }
}

/// Whether the change takes `x` away from its parent.
fn moves<T: TreeLike>(tree: &T, x: NodeId, c: &Change) -> bool
    ensures { MatchBool result (Moves (T.nodes tree.now) x.0 c.now) (¬ (Moves (T.nodes tree.now) x.0 c.now)) }
{
    match c {
        Change::Keep => false,
        Change::Put(node) => match tree.get(x) {
            Some(before) => before.place.parent != node.place.parent,
            None => false,
        },
        Change::Cut => true,
    }
}
