ghost use Rattle.std.specs.Prelude.{◌≡◌};
ghost use Rattle.std.specs.FinMap as map;
ghost use Rattle.nuc_base.specs.Trees.{WellFormed};
ghost use Rattle.nuc_measure.specs.Differing as spec;

use nuc_base::{NodeId, TreeLike};
use nuc_class::value_eq;
use nuc_plan::Walk;

/// The number of identities at which Remote, Local and Synced aren't all equal. It is 0 exactly where the trees are.
pub fn differing<T: TreeLike>(remote: &T, local: &T, synced: &T) -> u64
    requires remote { WellFormed (T.nodes remote.now) }
    requires local { WellFormed (T.nodes local.now) }
    requires synced { WellFormed (T.nodes synced.now) }
    ensures { spec.IsDiffering (T.nodes remote.now) (T.nodes local.now) (T.nodes synced.now) result }
{
    let mut count = 0;
    let mut walk = Walk::new();
    while let Some(id) = walk.next(remote, local, synced) {
        if differs(remote, local, synced, id) {
            count += 1;
        }
    }
    count
}

pub(crate) fn differs<T: TreeLike>(remote: &T, local: &T, synced: &T, id: NodeId) -> bool
    ensures { result ≡ spec.differs (map.get (T.nodes remote.now) id.0) (map.get (T.nodes local.now) id.0) (map.get (T.nodes synced.now) id.0) }
{
    let own = local.get(id);
    !value_eq(remote.get(id), own) || !value_eq(own, synced.get(id))
}
