ghost use Rattle.std.specs.Prelude.{◌≡◌, ◌<◌, ◌≤◌, ◌+◌, length, ℕ, option_map, slice_get, MatchResult};
ghost use Rattle.nuc_index.specs.Siblings.{IsRowAt, IsRowGap, IsRisingByParent, child_rows, id_below};
ghost use Rattle.nuc_index.specs.Slots.{AreFull, rows_in};

use crate::entry::Entry;
use crate::sought::{Sought, position, row_of};
use nuc_base::NodeId;
use nuc_tiered::TieredVec;
use slab::Slab;

/// An identity and its parent.
#[derive(Clone, Copy, Debug, PartialEq, Eq)]
pub struct Sibling {
    pub parent: NodeId,
    pub id: NodeId,
}

/// Where the slot of a row stands in the list by parent and identity, or else where it would.
pub fn sibling_position(
    siblings: &TieredVec,
    entries: &Slab<Entry>,
    row: Sibling,
) -> Result<usize, usize>
    requires full { AreFull entries.now siblings.now.items }
    requires rise { IsRisingByParent (rows_in entries.now siblings.now.items) }
    ensures place { MatchResult result (IsRowAt row (rows_in entries.now siblings.now.items)) (IsRowGap row (rows_in entries.now siblings.now.items)) }
    ensures bound { MatchResult result (λ i. i < length siblings.now.items) (λ i. i ≤ length siblings.now.items) }
{
    position(siblings, entries, Sought::Row(row))
}

/// The identity at this position among those with this parent, in rising order.
pub fn child_at(
    siblings: &TieredVec,
    entries: &Slab<Entry>,
    parent: NodeId,
    i: u64,
) -> Option<NodeId>
    requires full { AreFull entries.now siblings.now.items }
    requires rise { IsRisingByParent (rows_in entries.now siblings.now.items) }
    ensures { option_map (λ x. x.0) result ≡ slice_get (child_rows parent.0 (rows_in entries.now siblings.now.items)) i }
{
    let start = from_parent(siblings, entries, parent);
    if i >= (siblings.len() - start) as u64 {
        return None;
    }
    let slot = siblings.get(i as usize + start)?;
    let row = row_of(&entries[slot]);
    if row.parent == parent {
        Some(row.id)
    } else {
        None
    }
}

/// Where the rows with this parent begin, or else where they would. No node has identity 0, so its row would be the first.
fn from_parent(siblings: &TieredVec, entries: &Slab<Entry>, parent: NodeId) -> usize
    requires full { AreFull entries.now siblings.now.items }
    requires rise { IsRisingByParent (rows_in entries.now siblings.now.items) }
    ensures rows { (i : ℕ) → slice_get (child_rows parent.0 (rows_in entries.now siblings.now.items)) i ≡ id_below parent.0 (slice_get (rows_in entries.now siblings.now.items) (i + result)) }
    ensures bound { result ≤ length siblings.now.items }
{
    let first = Sibling {
        parent,
        id: NodeId(0),
    };
    match sibling_position(siblings, entries, first) {
        Ok(start) => start,
        Err(start) => start,
    }
}
