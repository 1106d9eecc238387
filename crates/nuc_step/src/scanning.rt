ghost use Rattle.std.specs.Prelude.{◌≡◌, IfOk, OnErr, OnOk};
ghost use Rattle.nuc_edits.specs.Edits.{IsNext};
ghost use Rattle.nuc_step.specs.Scanning.{CanTake, ListAnswers, Reads, ScanAnswers, Takes, before_of};
ghost use Rattle.nuc_step.specs.Watching.{CanWatch, Watching};

use crate::changed_count::changed_count;
use crate::client::trees_are_sound;
use crate::held::Held;
use crate::reading::{Read, read_held};
use crate::taking::{counted_if, enter_all, local_parts, room_for};
use crate::{Client, ListReply, Scanned};
use nuc_base::{Counters, TreeLike};
use nuc_edits::Edits;
use nuc_folder::{Item, MOST_ITEMS};
use nuc_observe::Observed;
use std::alloc::{AllocError, Global};

impl<T: TreeLike> Client<T> {
    /// Holds a listing of the folder in place of any other, with the count of Local's changes as it is now. It takes no
    /// memory.
    pub fn list(&mut self, items: Vec<Item>) -> ListReply
        ensures { ListAnswers self.old items.items result self.new }
    {
        let count = items.len() as u64;
        if count > MOST_ITEMS {
            return ListReply::TooLong(count);
        }
        let changes = self.counts.changes;
        self.listing.hold(Held { changes, items });
        ListReply::Held(changes)
    }

    /// What the listing that is held gives.
    fn read_listing(&self, alloc: Global, ids: &Counters, edits: &Edits) -> Result<Read, AllocError>
        ensures { let w : Watching = record { client = self.now.now; recorded = edits.now.now; ids = ids.now } in
            IfOk result (λ found. Reads self.now.listing.now w.client.changes (before_of w) w.ids found) }
    {
        let (remote, synced) = (self.remote.tree(), self.synced.tree());
        let (held, changes) = (self.listing.get(), self.counts.changes);
        read_held(
            alloc,
            held,
            changes,
            remote,
            &self.local,
            synced,
            edits,
            ids,
        )
    }
}

/// Calls that let a tree go.
impl<T: TreeLike + Drop> Client<T> {
    /// Takes the listing that is held over into Local, with the edits that it shows, where Local hasn't changed since it
    /// was made and all of it is good. However it answers, none is held after it. After an `Err` the client is as it was; a
    /// counter at its end counts as want of memory.
    pub fn scan(
        &mut self,
        alloc: Global,
        ids: &mut Counters,
        edits: &mut Edits,
    ) -> Result<Scanned, AllocError>
        requires { CanWatch self.old.now edits.old.now ids.old }
        ensures ok { let w : Watching = record { client = self.old.now; recorded = edits.old.now; ids = ids.old } in
            IfOk result (λ answer. ScanAnswers self.old.listing w answer self.new.listing (record { client = self.new.now; recorded = edits.new.now; ids = ids.new })) }
        ensures err { OnErr result (self.new.now ≡ self.old.now) }
        ensures err_listing { OnErr result (self.new.listing ≡ self.old.listing) }
        ensures err_next { OnErr result (IsNext ids.new.next_ver edits.new.now.edits) }
        ensures err_id { OnErr result (ids.new.next_id ≡ ids.old.next_id) }
        ensures settled { self.new.settled ≡ self.old.settled }
        ensures edits_settled { edits.new.settled ≡ edits.old.settled }
    {
        let answer = match self.read_listing(alloc, ids, edits)? {
            Read::Nothing => Scanned::NoListing,
            Read::Stale => Scanned::Stale(self.counts.changes),
            Read::Bad(number) => Scanned::Bad(number),
            Read::Good(all) => Scanned::Changed(self.take_over(alloc, ids, edits, all)?),
        };
        self.listing.let_go();
        Ok(answer)
    }

    /// What was read of a good listing comes in place of Local. It answers how many identities have another value.
    fn take_over(
        &mut self,
        alloc: Global,
        ids: &mut Counters,
        edits: &mut Edits,
        all: Observed,
    ) -> Result<u64, AllocError>
        requires next { IsNext ids.old.next_ver edits.old.now.edits }
        requires can { CanTake ids.old.next_ver all }
        ensures ok { let w : Watching = record { client = self.old.now; recorded = edits.old.now; ids = ids.old } in
            IfOk result (λ k. Takes all.nodes.items all.keys.items all.edits.items w k (record { client = self.new.now; recorded = edits.new.now; ids = ids.new })) }
        ensures ids { OnOk result (ids.new ≡ all.ids) }
        ensures err { OnErr result (self.new.now ≡ self.old.now) }
        ensures err_next { OnErr result (IsNext ids.new.next_ver edits.new.now.edits) }
        ensures err_id { OnErr result (ids.new.next_id ≡ ids.old.next_id) }
        ensures settled { self.new.settled ≡ self.old.settled }
        ensures listing { self.new.listing ≡ self.old.listing }
        ensures edits_settled { edits.new.settled ≡ edits.old.settled }
    {
        let flying = self.flights.len();
        let (tree, keys) = local_parts::<T>(alloc, &all)?;
        let count = changed_count(self.local.tree(), &tree)?;
        let changes = counted_if(self.counts.changes, count, flying)?;
        let room = room_for(flying)?;
        let (next_id, found) = (all.ids.next_id, all.edits);
        enter_all(edits, ids, found)?;
        self.local.replace(alloc, tree, keys, room)?;
        ids.next_id = next_id;
        trees_are_sound(&self.local, &self.synced);
        self.counts.changes = changes;
        Ok(count)
    }
}
