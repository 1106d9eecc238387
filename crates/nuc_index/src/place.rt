ghost use Rattle.std.specs.Prelude.{◌<◌, ◌≤◌, length, ℕ, MatchResult};
ghost use Rattle.nuc_base.specs.Trees.{Nodes};
ghost use Rattle.nuc_base.specs.declared.node.Place.{Place};
ghost use Rattle.nuc_index.specs.Entries.{IsRising, nodes_of};
ghost use Rattle.nuc_index.specs.Places.{IsPlaceAt, IsPlaceGap, IsRisingByPlace};
ghost use Rattle.nuc_index.specs.Rows.{IsIn};
ghost use Rattle.nuc_index.specs.Indexes.{AreSlots, tree_of};
ghost use Rattle.nuc_index.specs.Slots.{ids_in, entries_in};

use crate::entry::Entry;
use crate::indexes::Indexes;
use crate::sought::{Sought, position};
use nuc_base::{Name, NodeId};
use slab::Slab;

/// Where the slot stands in the list by place that has this place, or else where it would.
pub fn place_position(
    indexes: &Indexes,
    entries: &Slab<Entry>,
    parent: NodeId,
    name: &Name,
) -> Result<usize, usize>
    requires slots { AreSlots entries.now indexes.now }
    requires rise { IsRising (entries_in entries.now indexes.now.ids.items) }
    requires places { IsRisingByPlace (tree_of entries.now indexes.now) (ids_in entries.now indexes.now.places.items) }
    ensures place { let place : Place = record { parent = parent; name = name.now } in MatchResult result (IsPlaceAt (tree_of entries.now indexes.now) place (ids_in entries.now indexes.now.places.items)) (IsPlaceGap (tree_of entries.now indexes.now) place (ids_in entries.now indexes.now.places.items)) }
    ensures bound { MatchResult result (λ i. i < length indexes.now.places.items) (λ i. i ≤ length indexes.now.places.items) }
{
    position(&indexes.places, entries, Sought::At(parent, name))
}
