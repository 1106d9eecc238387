ghost use Rattle.std.specs.Prelude.{◌≡◌, ◌<◌, ◌≤◌, length, slice_get, IfSome, MatchResult, option_copied};
ghost use Rattle.std.specs.FinMap as map;
ghost use Rattle.nuc_index.specs.Entries.{IsRising, IsEntryAt, IsEntryGap, nodes_of};
ghost use Rattle.nuc_index.specs.Slots.{AreFull, entries_in, ids_in};

use crate::sought::{Sought, position};
use nuc_base::{Node, NodeId};
use nuc_tiered::TieredVec;
use slab::Slab;

/// A node and whose it is.
#[derive(Debug, Drop)]
pub struct Entry {
    pub id: NodeId,
    pub node: Node,
}

/// Where the slot of `id` stands in the list by identity, or else where it would.
pub fn entry_position(ids: &TieredVec, entries: &Slab<Entry>, id: NodeId) -> Result<usize, usize>
    requires full { AreFull entries.now ids.now.items }
    requires rise { IsRising (entries_in entries.now ids.now.items) }
    ensures place { MatchResult result (IsEntryAt id.0 (entries_in entries.now ids.now.items)) (IsEntryGap id.0 (entries_in entries.now ids.now.items)) }
    ensures bound { MatchResult result (λ i. i < length ids.now.items) (λ i. i ≤ length ids.now.items) }
{
    match dense_position(ids, entries, id) {
        Some(at) => Ok(at),
        None => position(ids, entries, Sought::Id(id)),
    }
}

/// Where the slot of `id` stands if each identity below it has a node, and that is so.
fn dense_position(ids: &TieredVec, entries: &Slab<Entry>, id: NodeId) -> Option<usize>
    requires { AreFull entries.now ids.now.items }
    ensures { IfSome result (λ at. IsEntryAt id.0 (entries_in entries.now ids.now.items) at × (at < length ids.now.items)) }
{
    let at = id.0.checked_sub(1)? as usize;
    let slot = ids.get(at)?;
    if entries[slot].id == id {
        Some(at)
    } else {
        None
    }
}

/// The node of `id`.
pub fn node_of<'a>(ids: &TieredVec, entries: &'a Slab<Entry>, id: NodeId) -> Option<&'a Node>
    requires full { AreFull entries.now ids.now.items }
    requires rise { IsRising (entries_in entries.now ids.now.items) }
    ensures { option_copied result ≡ map.get (nodes_of (entries_in entries.now ids.now.items)) id.0 }
{
    match entry_position(ids, entries, id) {
        Ok(at) => {
            let Some(slot) = ids.get(at) else {
                unreachable!()
            };
            Some(&entries[slot].node)
        }
        Err(_) => None,
    }
}

/// The identity of the entry in the slot at a position of a list.
pub fn id_at(slots: &TieredVec, entries: &Slab<Entry>, at: usize) -> Option<NodeId>
    requires { AreFull entries.now slots.now.items }
    ensures { result ≡ slice_get (ids_in entries.now slots.now.items) at }
{
    let slot = slots.get(at)?;
    Some(entries[slot].id)
}
