ghost use Rattle.std.specs.Prelude.{◌≡◌, ◌-◌, ◌^◌, ℕ, min};
ghost use Rattle.nuc_base.specs.Trees.{WellFormed};
ghost use Rattle.nuc_measure.specs.Potential as spec;

use crate::cost::cost_of;
use crate::count::differs;
use crate::mark::marks_of;
use nuc_base::{Hashes, NodeId, TreeLike};
use nuc_plan::Walk;

/// The potential of Remote, Local and Synced, or the greatest `u64` where it is more. It is 0 exactly where the trees are
/// equal and at most 6 for each identity that differs, and each operation of a plan that is carried out alone lowers it.
pub fn potential<T: TreeLike, H: Hashes>(remote: &T, local: &T, synced: &T, h: &H) -> u64
    requires remote { WellFormed (T.nodes remote.now) }
    requires local { WellFormed (T.nodes local.now) }
    requires synced { WellFormed (T.nodes synced.now) }
    ensures { (k : ℕ) → spec.IsPotential (H.same h.now) (T.nodes remote.now) (T.nodes local.now) (T.nodes synced.now) k → result ≡ min k (2 ^ 64 - 1) }
{
    let mut sum: u64 = 0;
    let mut walk = Walk::new();
    while let Some(id) = walk.next(remote, local, synced) {
        sum = sum.saturating_add(points_of(remote, local, synced, h, id));
    }
    sum
}

/// What one identity counts.
fn points_of<T: TreeLike, H: Hashes>(remote: &T, local: &T, synced: &T, h: &H, id: NodeId) -> u64
    requires remote { WellFormed (T.nodes remote.now) }
    requires local { WellFormed (T.nodes local.now) }
    requires synced { WellFormed (T.nodes synced.now) }
    ensures { result ≡ spec.points (H.same h.now) spec.no_flight (T.nodes remote.now) (T.nodes local.now) (T.nodes synced.now) id.0 }
{
    if !differs(remote, local, synced, id) {
        return 0;
    }
    let cost = cost_of(h, remote.get(id), local.get(id), synced.get(id));
    cost + marks_of(remote, local, synced, id)
}
