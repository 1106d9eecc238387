ghost use Rattle.std.specs.Prelude.{◌≡◌, ◌<◌, ◌≤◌, length, MatchResult};
ghost use Rattle.std.specs.List.Sorted.{IsNonDecreasingBy};
ghost use Rattle.std.specs.Ordering.{ordering_index};
ghost use Rattle.nuc_base.specs.declared.node.Place.{Place};
ghost use Rattle.nuc_index.specs.Places.{place_order};
ghost use Rattle.nuc_index.specs.Rows.{IsAt, IsGap};
ghost use Rattle.nuc_index.specs.Siblings.{sibling_order};
ghost use Rattle.nuc_index.specs.Slots.{AreFull, compare, compare_slot, row_of_entry};

use crate::entry::Entry;
use crate::sibling::Sibling;
use nuc_base::{Name, NodeId, Place};
use nuc_tiered::TieredVec;
use slab::Slab;
use std::cmp::Ordering;

/// What a list is searched for: an identity, a place, or an identity under its parent.
#[derive(Clone, Copy)]
pub enum Sought<'a> {
    Id(NodeId),
    At(NodeId, &'a Name),
    Row(Sibling),
}

/// Where what is sought stands in a list of slots, or else where it would. A binary search.
pub fn position(
    slots: &TieredVec,
    entries: &Slab<Entry>,
    sought: Sought<'_>,
) -> Result<usize, usize>
    requires full { AreFull entries.now slots.now.items }
    requires rise { IsNonDecreasingBy (λ k. ordering_index (compare_slot entries.now sought k)) slots.now.items }
    ensures place { MatchResult result (IsAt (compare_slot entries.now sought.entry) slots.now.items) (IsGap (compare_slot entries.now sought.entry) slots.now.items) }
    ensures bound { MatchResult result (λ i. i < length slots.now.items) (λ i. i ≤ length slots.now.items) }
{
    let mut low = 0;
    let mut high = slots.len();
    while low < high {
        let middle = low + (high - low) / 2;
        let Some(slot) = slots.get(middle) else {
            unreachable!()
        };
        match order_to(&entries[slot], sought) {
            Ordering::Less => low = middle + 1,
            Ordering::Equal => return Ok(middle),
            Ordering::Greater => high = middle,
        }
    }
    Err(low)
}

/// How an entry compares with what is sought.
fn order_to(entry: &Entry, sought: Sought<'_>) -> Ordering
    ensures { result ≡ compare sought.entry entry.now }
{
    match sought {
        Sought::Id(id) => entry.id.0.cmp(&id.0),
        Sought::At(parent, name) => place_to(&entry.node.place, parent, name),
        Sought::Row(row) => row_to(row_of(entry), row),
    }
}

/// The order of places: by the parents' identities, and then by the order of names.
fn place_to(place: &Place, parent: NodeId, name: &Name) -> Ordering
    ensures { let other : Place = record { parent = parent; name = name.now } in result ≡ place_order place.now other }
{
    match place.parent.0.cmp(&parent.0) {
        Ordering::Equal => place.name.order(name),
        unequal => unequal,
    }
}

/// The order of rows: by the parents' identities, and then by their own.
fn row_to(row: Sibling, other: Sibling) -> Ordering
    ensures { result ≡ sibling_order row other }
{
    match row.parent.0.cmp(&other.parent.0) {
        Ordering::Equal => row.id.0.cmp(&other.id.0),
        unequal => unequal,
    }
}

/// The identity and the parent of an entry.
pub fn row_of(entry: &Entry) -> Sibling
    ensures { result ≡ row_of_entry entry.now }
{
    Sibling {
        parent: entry.node.place.parent,
        id: entry.id,
    }
}
