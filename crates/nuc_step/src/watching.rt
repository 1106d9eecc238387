ghost use Rattle.std.specs.Prelude.{◌≡◌, ◌<◌, IfOk, IfSome, OnErr, OnOk};
ghost use Rattle.nuc_edits.specs.Edits.{IsNext};
ghost use Rattle.nuc_step.specs.Watching.{CanTurn, CanWatch, IsWatched, WatchAnswers};

use crate::client::trees_are_sound;
use crate::noticing::leads_to;
use crate::turning::{
    counted_beside, enter_any, is_turned_by, make_room_beside, next_id_after, turn_local,
};
use crate::watched::Watched;
use crate::{Client, WatchReply};
use nuc_base::{Counters, TreeLike};
use nuc_edits::Edits;
use nuc_folder::Noticed;
use std::alloc::{AllocError, Global};

impl<T: TreeLike> Client<T> {
    /// Takes one change that a user made in the folder over into Local, with the edit that it is, if it is one. Where that
    /// can't be done the folder is to be listed and scanned, and nothing changes. After an `Err` all is as it was; a
    /// counter at its end counts as want of memory.
    pub fn watch(
        &mut self,
        alloc: Global,
        change: &Noticed,
        ids: &mut Counters,
        edits: &mut Edits,
    ) -> Result<WatchReply, AllocError>
        requires { CanWatch self.old.now edits.old.now ids.old }
        ensures ok { IfOk result (λ answer. WatchAnswers (record { client = self.old.now; recorded = edits.old.now; ids = ids.old }) change.now answer (record { client = self.new.now; recorded = edits.new.now; ids = ids.new })) }
        ensures err { OnErr result (self.new.now ≡ self.old.now) }
        ensures err_edits { OnErr result (edits.new.now ≡ edits.old.now) }
        ensures err_ids { OnErr result (ids.new ≡ ids.old) }
        ensures settled { self.new.settled ≡ self.old.settled }
        ensures listing { self.new.listing ≡ self.old.listing }
        ensures edits_settled { edits.new.settled ≡ edits.old.settled }
    {
        let (remote, synced) = (self.remote.tree(), self.synced.tree());
        match leads_to(alloc, remote, &self.local, synced, edits, ids, change)? {
            Some(watched) => {
                let id = watched.id;
                self.note_watched(watched, ids, edits)?;
                Ok(WatchReply::Changed(id))
            }
            None => Ok(WatchReply::Rescan),
        }
    }

    /// One identity of Local changes as it was found, with its edit.
    fn note_watched(
        &mut self,
        watched: Watched,
        ids: &mut Counters,
        edits: &mut Edits,
    ) -> Result<(), AllocError>
        requires can { CanTurn self.old.now.local watched.id.0 watched.turn }
        requires next { IsNext ids.old.next_ver edits.old.now.edits }
        requires version { IfSome watched.edit (λ e. e.ver.0 ≡ ids.old.next_ver) }
        ensures ok { OnOk result (IsWatched watched (record { client = self.old.now; recorded = edits.old.now; ids = ids.old }) (record { client = self.new.now; recorded = edits.new.now; ids = ids.new })) }
        ensures err { OnErr result (self.new.now ≡ self.old.now) }
        ensures err_edits { OnErr result (edits.new.now ≡ edits.old.now) }
        ensures err_ids { OnErr result (ids.new ≡ ids.old) }
        ensures settled { self.new.settled ≡ self.old.settled }
        ensures listing { self.new.listing ≡ self.old.listing }
        ensures edits_settled { edits.new.settled ≡ edits.old.settled }
    {
        let Watched { id, turn, edit } = watched;
        let flying = self.flights.len();
        let is_changed = is_turned_by(&self.local, id, &turn);
        let changes = counted_beside(self.counts.changes, is_changed, flying)?;
        let next_id = next_id_after(&turn, ids.next_id)?;
        make_room_beside(&mut self.local, flying)?;
        enter_any(edits, ids, edit)?;
        ids.next_id = next_id;
        turn_local(&mut self.local, id, turn);
        trees_are_sound(&self.local, &self.synced);
        self.counts.changes = changes;
        Ok(())
    }
}
