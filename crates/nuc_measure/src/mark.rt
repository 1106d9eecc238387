ghost use Rattle.std.specs.Prelude.{◌≡◌, ◌≤◌};
ghost use Rattle.std.specs.FinMap as map;
ghost use Rattle.nuc_base.specs.Trees.{WellFormed};
ghost use Rattle.nuc_measure.specs.Marks as test;
ghost use Rattle.nuc_measure.specs.Potential as spec;

use nuc_base::{NodeId, Place, TreeLike};

/// The marks that an identity has in Remote, Local and Synced: 3 at most.
pub(crate) fn marks_of<T: TreeLike>(remote: &T, local: &T, synced: &T, id: NodeId) -> u64
    requires remote { WellFormed (T.nodes remote.now) }
    requires local { WellFormed (T.nodes local.now) }
    requires synced { WellFormed (T.nodes synced.now) }
    ensures few { result ≤ 3 }
    ensures marks { result ≡ spec.marks (T.nodes remote.now) (T.nodes local.now) (T.nodes synced.now) id.0 }
{
    let mut marks = 0;
    if is_marked(remote, local, synced, true, id) {
        marks += 1;
    }
    if is_marked(local, remote, synced, true, id) {
        marks += 1;
    }
    if is_marked(synced, remote, local, false, id) {
        marks += 1;
    }
    marks
}

/// Whether `own` gives the identity a mark, beside the other two trees.
fn is_marked<T: TreeLike>(own: &T, a: &T, b: &T, orphans: bool, id: NodeId) -> bool
    requires first { WellFormed (T.nodes a.now) }
    requires second { WellFormed (T.nodes b.now) }
    ensures { result ≡ test.is_marked (T.nodes a.now) (T.nodes b.now) orphans id.0 (map.get (T.nodes own.now) id.0) }
{
    let Some(node) = own.get(id) else {
        return false;
    };
    let place = &node.place;
    is_held(a, place, id) || is_held(b, place, id) || (orphans && is_lost(a, b, place.parent))
}

/// Whether another identity has the place.
fn is_held<T: TreeLike>(tree: &T, place: &Place, id: NodeId) -> bool
    requires { WellFormed (T.nodes tree.now) }
    ensures { result ≡ test.is_held (T.nodes tree.now) place.now id.0 }
{
    match tree.at(place.parent, &place.name) {
        Some(holder) => holder != id,
        None => false,
    }
}

/// Whether the identity isn't the root, and stands in neither of the two trees.
fn is_lost<T: TreeLike>(a: &T, b: &T, id: NodeId) -> bool
    ensures { result ≡ test.is_lost (T.nodes a.now) (T.nodes b.now) id.0 }
{
    id != NodeId(0) && a.get(id).is_none() && b.get(id).is_none()
}
