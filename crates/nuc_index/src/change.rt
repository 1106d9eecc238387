ghost use Rattle.std.specs.Prelude.{◌≡◌, ◌<◌, ◌≤◌, ◌+◌, length, slice_get, ℕ, Some, MatchBool, OnOk, OnErr};
ghost use Rattle.std.specs.FinMap as map;
ghost use Rattle.slab.specs.Slab.{ContainsKey, Updates, slab_len};
ghost use Rattle.nuc_base.specs.Legal.{IsFree};
ghost use Rattle.nuc_base.specs.SamePlace.{SamePlace};
ghost use Rattle.nuc_index.specs.Entries.{IsEntryAt, IsEntryGap};
ghost use Rattle.nuc_index.specs.Indexes.{IsIndexed, room, tree_of};
ghost use Rattle.nuc_index.specs.Slots.{entries_in, entry_in};

use crate::entry::Entry;
use crate::indexes::Indexes;
use nuc_base::{Node, NodeId};
use nuc_tiered::TieredVec;
use slab::Slab;
use std::alloc::AllocError;
use std::mem;

/// Puts in an entry whose identity has none. The room for it is made before the first change.
pub fn add(
    entries: &mut Slab<Entry>,
    indexes: &mut Indexes,
    at: usize,
    entry: Entry,
) -> Result<(), AllocError>
    requires form { IsIndexed entries.old indexes.old }
    requires at { IsEntryGap entry.id.0 (entries_in entries.old indexes.old.ids.items) at }
    requires within { at ≤ length indexes.old.ids.items }
    requires free { IsFree (tree_of entries.old indexes.old) entry.id.0 entry.node.place }
    ensures form { IsIndexed entries.new indexes.new }
    ensures ok { OnOk result (tree_of entries.new indexes.new ≡ map.insert (tree_of entries.old indexes.old) entry.id.0 entry.node) }
    ensures err { OnErr result (tree_of entries.new indexes.new ≡ tree_of entries.old indexes.old) }
    ensures memory { OnErr result (room entries.old indexes.old ≡ 0) }
    ensures spare { OnOk result (room entries.old indexes.old ≤ room entries.new indexes.new + 1) }
    ensures spare_err { OnErr result (room entries.old indexes.old ≤ room entries.new indexes.new) }
{
    entries.reserve(1)?;
    indexes.reserve(1)?;
    let slot = entries.insert_reserved(entry);
    indexes.ids.insert(at, slot);
    indexes.enter(entries, slot);
    Ok(())
}

/// Puts an entry in the place of that of its identity, whose node it hands over. It takes no memory.
pub fn exchange(entries: &mut Slab<Entry>, indexes: &mut Indexes, at: usize, entry: Entry) -> Node
    requires form { IsIndexed entries.old indexes.old }
    requires at { IsEntryAt entry.id.0 (entries_in entries.old indexes.old.ids.items) at }
    requires free { IsFree (tree_of entries.old indexes.old) entry.id.0 entry.node.place }
    ensures form { IsIndexed entries.new indexes.new }
    ensures nodes { tree_of entries.new indexes.new ≡ map.insert (tree_of entries.old indexes.old) entry.id.0 entry.node }
    ensures before { map.get (tree_of entries.old indexes.old) entry.id.0 ≡ Some result }
    ensures spare { room entries.new indexes.new ≡ room entries.old indexes.old }
{
    let slot = slot_at(&indexes.ids, at);
    if stays(&entries[slot].node, &entry.node) {
        return replace(entries, slot, entry);
    }
    indexes.leave(entries, slot);
    let before = replace(entries, slot, entry);
    indexes.enter(entries, slot);
    before
}

/// Puts an entry in a slot, and hands over the node that was there.
fn replace(entries: &mut Slab<Entry>, slot: usize, entry: Entry) -> Node
    requires { ContainsKey entries.old slot }
    ensures before { result ≡ (entry_in entries.old slot).node }
    ensures updates { Updates entries.old entries.new slot (Some entry) }
    ensures len { slab_len entries.new ≡ slab_len entries.old }
    ensures capacity { entries.new.capacity ≡ entries.old.capacity }
{
    let Entry { id: _, node } = mem::replace(&mut entries[slot], entry);
    node
}

/// Whether the second has the place of the first, so that no list changes.
fn stays(before: &Node, after: &Node) -> bool
    ensures { MatchBool result (SamePlace before.now.place after.now.place) (¬ (SamePlace before.now.place after.now.place)) }
{
    let (one, other) = (&before.place, &after.place);
    one.parent == other.parent && one.name.same(&other.name)
}

/// Takes out the entry of an identity, and hands over its node. Its room is spare then.
pub fn take_out(entries: &mut Slab<Entry>, indexes: &mut Indexes, at: usize, id: NodeId) -> Node
    requires form { IsIndexed entries.old indexes.old }
    requires at { IsEntryAt id.0 (entries_in entries.old indexes.old.ids.items) at }
    ensures form { IsIndexed entries.new indexes.new }
    ensures before { map.get (tree_of entries.old indexes.old) id.0 ≡ Some result }
    ensures nodes { tree_of entries.new indexes.new ≡ map.remove (tree_of entries.old indexes.old) id.0 }
    ensures spare { room entries.new indexes.new ≡ room entries.old indexes.old + 1 }
{
    let slot = slot_at(&indexes.ids, at);
    indexes.leave(entries, slot);
    indexes.ids.remove(at);
    let Entry { id: _, node } = entries.remove(slot);
    node
}

/// The slot at a position.
fn slot_at(slots: &TieredVec, at: usize) -> usize
    requires { at < length slots.now.items }
    ensures { slice_get slots.now.items at ≡ Some result }
{
    let Some(slot) = slots.get(at) else {
        unreachable!()
    };
    slot
}
