ghost use Rattle.std.specs.Prelude.{◌≡◌, ◌<◌, ◌≤◌, ◌+◌, OnOk, OnErr, [], ℕ};
ghost use Rattle.std.specs.FinMap as map;
ghost use Rattle.nuc_index.specs.Entries.{IsRising};
ghost use Rattle.nuc_index.specs.Indexes.{AreSlots, CanEnter, IsIndexOf, SameLists, index_spare, tree_of};
ghost use Rattle.nuc_index.specs.Rows.{IsIn};
ghost use Rattle.nuc_index.specs.Slots.{entries_in, entry_in};

use crate::entry::Entry;
use crate::place::place_position;
use crate::sibling::sibling_position;
use crate::sought::row_of;
use nuc_tiered::TieredVec;
use slab::Slab;
use std::alloc::{AllocError, Global};

/// The slots of a tree's entries: once in order of identity, once of place, and once of parent and identity.
#[derive(Debug, Drop)]
pub struct Indexes {
    pub ids: TieredVec,
    pub places: TieredVec,
    pub siblings: TieredVec,
}

impl Indexes {
    /// Those of the tree of nothing but the root. They take no memory.
    pub fn new(alloc: Global) -> Indexes
        ensures ids { result.ids.items ≡ [] }
        ensures places { result.places.items ≡ [] }
        ensures siblings { result.siblings.items ≡ [] }
    {
        Indexes {
            ids: TieredVec::new(alloc),
            places: TieredVec::new(alloc),
            siblings: TieredVec::new(alloc),
        }
    }

    /// Makes room for that many more slots.
    pub fn reserve(&mut self, n: usize) -> Result<(), AllocError>
        ensures same { SameLists self.old self.new }
        ensures ok { OnOk result (n ≤ index_spare self.new) }
        ensures memory { OnErr result (index_spare self.old < n) }
        ensures spare { index_spare self.old ≤ index_spare self.new }
    {
        self.ids.reserve(n)?;
        self.places.reserve(n)?;
        self.siblings.reserve(n)
    }

    /// Puts a slot into the lists by place and by parent, that of the only entry that isn't in. The room is there.
    pub fn enter(&mut self, entries: &Slab<Entry>, slot: usize)
        requires can { CanEnter entries.now slot self.old }
        requires places { 0 < self.old.places.spare }
        requires siblings { 0 < self.old.siblings.spare }
        ensures ids { self.new.ids ≡ self.old.ids }
        ensures slots { AreSlots entries.now self.new }
        ensures lists { IsIndexOf (tree_of entries.now self.new) entries.now self.new }
        ensures places { self.old.places.spare ≡ self.new.places.spare + 1 }
        ensures siblings { self.old.siblings.spare ≡ self.new.siblings.spare + 1 }
    {
        let place = &entries[slot].node.place;
        let Err(at) = place_position(self, entries, place.parent, &place.name) else {
            unreachable!()
        };
        let row = row_of(&entries[slot]);
        let Err(beside) = sibling_position(&self.siblings, entries, row) else {
            unreachable!()
        };
        self.places.insert(at, slot);
        self.siblings.insert(beside, slot);
    }

    /// Takes the slot of one of the entries out of the lists by place and by parent. Its room is spare then.
    pub fn leave(&mut self, entries: &Slab<Entry>, slot: usize)
        requires slots { AreSlots entries.now self.old }
        requires rise { IsRising (entries_in entries.now self.old.ids.items) }
        requires there { IsIn slot self.old.ids.items }
        requires lists { IsIndexOf (tree_of entries.now self.old) entries.now self.old }
        ensures ids { self.new.ids ≡ self.old.ids }
        ensures slots { AreSlots entries.now self.new }
        ensures lists { IsIndexOf (map.remove (tree_of entries.now self.old) (entry_in entries.now slot).id.0) entries.now self.new }
        ensures places { self.new.places.spare ≡ self.old.places.spare + 1 }
        ensures siblings { self.new.siblings.spare ≡ self.old.siblings.spare + 1 }
    {
        let place = &entries[slot].node.place;
        let Ok(at) = place_position(self, entries, place.parent, &place.name) else {
            unreachable!()
        };
        let row = row_of(&entries[slot]);
        let Ok(beside) = sibling_position(&self.siblings, entries, row) else {
            unreachable!()
        };
        self.places.remove(at);
        self.siblings.remove(beside);
    }
}
