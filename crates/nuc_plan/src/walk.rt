ghost use Rattle.std.specs.Prelude.{◌≡◌, ℕ, MatchOption, option_map, slice_get};
ghost use Rattle.std.specs.FinMap as map;
ghost use Rattle.nuc_base.specs.Trees.{Nodes};
ghost use Rattle.nuc_plan.specs.Walk as spec;

use nuc_base::{NodeId, TreeLike};

/// A walk over the identities of Remote, Local and Synced, in rising order: the position in each tree of the first
/// identity that it hasn't passed. It comes to each identity once, also to one that stands in several of them.
#[derive(Clone, Copy)]
pub struct Walk {
    remote: u64,
    local: u64,
    synced: u64,
}

impl Walk {
    /// Nothing is passed yet.
    pub fn new() -> Walk
        ensures { (r l s : Nodes) → spec.HasPassed r l s 0 result }
    {
        Walk {
            remote: 0,
            local: 0,
            synced: 0,
        }
    }

    /// Goes past the next identity of the three trees, if there is one more.
    pub fn next<T: TreeLike>(&mut self, r: &T, l: &T, s: &T) -> Option<NodeId>
        ensures { (below : ℕ) → spec.HasPassed (T.nodes r.now) (T.nodes l.now) (T.nodes s.now) below self.old → MatchOption result (spec.AllPassed (T.nodes r.now) (T.nodes l.now) (T.nodes s.now) below) (λ x. spec.GoesPast (T.nodes r.now) (T.nodes l.now) (T.nodes s.now) below x.0 self.old self.new) }
    {
        let of_both = lesser(r.nth(self.remote), l.nth(self.local));
        let id = lesser(of_both, s.nth(self.synced))?;
        self.remote = behind(r, self.remote, id);
        self.local = behind(l, self.local, id);
        self.synced = behind(s, self.synced, id);
        Some(id)
    }
}

/// The lesser of two identities, or the one that is there.
fn lesser(a: Option<NodeId>, b: Option<NodeId>) -> Option<NodeId>
    ensures { option_map (λ x. x.0) result ≡ spec.lesser (option_map (λ x. x.0) a) (option_map (λ x. x.0) b) }
{
    match (a, b) {
        (Some(x), Some(y)) if y.0 < x.0 => b,
        (Some(_), _) => a,
        (None, _) => b,
    }
}

/// The position behind this one where the identity stands at it, else this one.
fn behind<T: TreeLike>(tree: &T, at: u64, id: NodeId) -> u64
    ensures { result ≡ spec.behind (slice_get (map.keys (T.nodes tree.now)) at) id.0 at }
{
    match tree.nth(at) {
        Some(found) if found == id && at < tree.len() => at + 1,
        _ => at,
    }
}
