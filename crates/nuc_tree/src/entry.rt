ghost use Rattle.std.specs.Prelude.{◌≡◌, ◌≢◌, ◌<◌, ◌≤◌, ℕ, length, option_map, slice_get, MatchBool, MatchOption, MatchResult};
ghost use Rattle.std.specs.List.{All, HoldsAt};
ghost use Rattle.nuc_base.specs.SamePlace.{SamePlace};
ghost use Rattle.nuc_base.specs.declared.node.Place.{Place};
ghost use Rattle.nuc_tree.specs.Entries.{IsRising, IsFound, IsGap, child_ids};

use nuc_base::{Name, Node, NodeId};

/// A node and whose it is.
#[derive(Debug, Drop)]
pub struct Entry {
    pub id: NodeId,
    pub node: Node,
}

/// Where the entry of `id` stands, or else where it would. A binary search.
pub fn position(entries: &[Entry], id: NodeId) -> Result<usize, usize>
    requires { IsRising entries.now }
    ensures place { MatchResult result (IsFound id.0 entries.now) (IsGap id.0 entries.now) }
    ensures bound { MatchResult result (λ i. i < length entries.now) (λ i. i ≤ length entries.now) }
{
    entries.binary_search_by_key(&id.0, |entry| entry.id.0)
}

/// Who has this place.
pub fn standing_at(entries: &[Entry], parent: NodeId, name: &Name) -> Option<NodeId>
    ensures { let place : Place = record { parent = parent; name = name.now } in MatchOption result (All (λ e. ¬ (SamePlace e.node.place place)) entries.now) (λ x. (k : ℕ) × (k < length entries.now) × HoldsAt (λ e. (e.id.0 ≡ x.0) × SamePlace e.node.place place) entries.now k) }
{
    for entry in entries {
        let place = &entry.node.place;
        if place.parent == parent && place.name.same(name) {
            return Some(entry.id);
        }
    }
    None
}

/// Whether some entry has this parent.
pub fn has_parent(entries: &[Entry], parent: NodeId) -> bool
    ensures { MatchBool result ((k : ℕ) × (k < length entries.now) × HoldsAt (λ e. e.node.place.parent.0 ≡ parent.0) entries.now k) (All (λ e. e.node.place.parent.0 ≢ parent.0) entries.now) }
{
    for entry in entries {
        if entry.node.place.parent == parent {
            return true;
        }
    }
    false
}

/// The entry at this position among those with this parent.
pub fn child_at(entries: &[Entry], parent: NodeId, i: u64) -> Option<NodeId>
    ensures { option_map (λ x. x.0) result ≡ slice_get (child_ids parent.0 entries.now) i }
{
    let mut before = i;
    for entry in entries {
        if entry.node.place.parent == parent {
            if before == 0 {
                return Some(entry.id);
            }
            before -= 1;
        }
    }
    None
}
