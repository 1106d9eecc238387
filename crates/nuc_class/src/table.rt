ghost use Rattle.nuc_base.specs.Trees.{WellFormed};
ghost use Rattle.nuc_class.specs.Wishes.{IsWish};

use crate::equal::value_eq;
use crate::{Wish, going_local, going_remote, needs_split};
use nuc_base::{Hashes, NodeId, TreeLike};

/// What `id` wishes. It takes a few calls of the trees, but where one side has deleted what the other has kept as it was:
/// there it goes through the subtree.
pub fn wish<T: TreeLike, H: Hashes>(r: &T, l: &T, s: &T, h: &H, id: NodeId) -> Wish
    requires remote { WellFormed (T.nodes r.now) }
    requires local { WellFormed (T.nodes l.now) }
    ensures { IsWish (H.same h.now) (T.nodes r.now) (T.nodes l.now) (T.nodes s.now) id.0 result }
{
    let (remote, local, synced) = (r.get(id), l.get(id), s.get(id));
    if needs_split(remote, local, synced, h) {
        return Wish::Split;
    }
    match (remote, local, synced) {
        (Some(_), Some(_), _) if !value_eq(synced, remote) => Wish::Down,
        (Some(_), Some(_), _) if !value_eq(synced, local) => Wish::Up,
        (Some(_), Some(_), _) => Wish::Nothing,
        (Some(_), None, _) if going_remote(r, l, s, id) => Wish::CutUp,
        (Some(_), None, _) => Wish::Down,
        (None, Some(_), Some(_)) if going_local(r, l, s, id) => Wish::CutDown,
        (None, Some(_), _) => Wish::Up,
        (None, None, Some(_)) => Wish::Forget,
        (None, None, None) => Wish::Nothing,
    }
}
