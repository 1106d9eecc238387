ghost use Rattle.std.specs.Prelude.{◌≡◌, ◌<◌, ◌+◌, ℕ, MatchBool};
ghost use Rattle.std.specs.FinMap as map;
ghost use Rattle.std.specs.Option.{option_copied};
ghost use Rattle.nuc_base.specs.Trees.{Steps, WellFormed};
ghost use Rattle.nuc_class.specs.Going.{GoingLocal, GoingRemote, IsKept, Leaves, Stays};
ghost use Rattle.nuc_class.specs.Sides.{GoingOn, Spared};

use crate::equal::{place_eq, value_eq};
use nuc_base::{Node, NodeId, TreeLike};

/// Whether what Remote has deleted goes in Local too.
pub fn going_local<T: TreeLike>(r: &T, l: &T, s: &T, id: NodeId) -> bool
    requires { WellFormed (T.nodes l.now) }
    ensures { MatchBool result (GoingLocal (T.nodes r.now) (T.nodes l.now) (T.nodes s.now) id.0) (¬ (GoingLocal (T.nodes r.now) (T.nodes l.now) (T.nodes s.now) id.0)) }
{
    goes(Side::Local, r, l, s, id, l.len())
}

/// Whether what Local has deleted goes in Remote too.
pub fn going_remote<T: TreeLike>(r: &T, l: &T, s: &T, id: NodeId) -> bool
    requires { WellFormed (T.nodes r.now) }
    ensures { MatchBool result (GoingRemote (T.nodes r.now) (T.nodes l.now) (T.nodes s.now) id.0) (¬ (GoingRemote (T.nodes r.now) (T.nodes l.now) (T.nodes s.now) id.0)) }
{
    goes(Side::Remote, l, r, s, id, r.len())
}

/// On which side something is to go.
#[derive(Clone, Copy)]
pub(crate) enum Side {
    Local,
    Remote,
}

/// Whether `id` goes on its own side. A walk from it down to the last generation takes fewer than `left` steps.
fn goes<T: TreeLike>(side: Side, other: &T, own: &T, s: &T, id: NodeId, left: u64) -> bool
    requires form { WellFormed (T.nodes own.now) }
    requires room { (k : ℕ) → 0 < k → Steps (T.nodes own.now) 0 id.0 k → map.len (T.nodes own.now) < k + left }
    ensures { MatchBool result (GoingOn side (T.nodes other.now) (T.nodes own.now) (T.nodes s.now) id.0) (¬ (GoingOn side (T.nodes other.now) (T.nodes own.now) (T.nodes s.now) id.0)) }
{
    if !is_kept(other.get(id), own.get(id), s.get(id)) {
        return false;
    }
    for i in 0..own.len() {
        let Some(child) = own.child(id, i) else {
            return true;
        };
        if !is_spared(side, other, own, s, child) && !goes(side, other, own, s, child, left - 1) {
            return false;
        }
    }
    true
}

/// Whether the other side has deleted it and its own side has kept it as it was.
fn is_kept(other: Option<&Node>, own: Option<&Node>, s: Option<&Node>) -> bool
    ensures { MatchBool result (IsKept (option_copied other.entry) (option_copied own.entry) (option_copied s.entry)) (¬ (IsKept (option_copied other.entry) (option_copied own.entry) (option_copied s.entry))) }
{
    other.is_none() && own.is_some() && value_eq(own, s)
}

/// Whether a child doesn't go with its folder, since the other side has placed it elsewhere.
fn is_spared<T: TreeLike>(side: Side, other: &T, own: &T, s: &T, id: NodeId) -> bool
    ensures { MatchBool result (Spared side (T.nodes other.now) (T.nodes own.now) (T.nodes s.now) id.0) (¬ (Spared side (T.nodes other.now) (T.nodes own.now) (T.nodes s.now) id.0)) }
{
    match side {
        Side::Local => leaves(other.get(id), s.get(id)),
        Side::Remote => stays(own.get(id), other.get(id), s.get(id)),
    }
}

fn leaves(r: Option<&Node>, s: Option<&Node>) -> bool
    ensures { MatchBool result (Leaves (option_copied r.entry) (option_copied s.entry)) (¬ (Leaves (option_copied r.entry) (option_copied s.entry))) }
{
    match (r, s) {
        (Some(r), Some(s)) => !place_eq(&r.place, &s.place),
        (Some(_), None) => true,
        (None, _) => false,
    }
}

fn stays(r: Option<&Node>, l: Option<&Node>, s: Option<&Node>) -> bool
    ensures { MatchBool result (Stays (option_copied r.entry) (option_copied l.entry) (option_copied s.entry)) (¬ (Stays (option_copied r.entry) (option_copied l.entry) (option_copied s.entry))) }
{
    match (r, l, s) {
        (Some(r), Some(_), Some(s)) => place_eq(&r.place, &s.place),
        _ => false,
    }
}
