ghost use Rattle.std.specs.Prelude.{◌≡◌, ◌<◌, ◌∷◌, ◌++◌, Some};
ghost use Rattle.nuc_base.specs.Trees.{IsFolder};
ghost use Rattle.nuc_edits.specs.Edits.{IsNext};
ghost use Rattle.nuc_journal.specs.Entries.{tree_of};
ghost use Rattle.nuc_journal.specs.Journal.{HasOldKind, IsJournal, IsLegalValue};
ghost use Rattle.nuc_paths.specs.Paths.{place_in};
ghost use Rattle.nuc_server.specs.Web.{AnswersAt, WebAnswers, path_of};
ghost use Rattle.nuc_server.specs.WebEdits.{EnterAnswers, IsNextId, WebState};

use crate::bit::set_bit;
use crate::mkdir::mkdir;
use crate::relocate::relocate;
use crate::remove::remove;
use crate::write::write;
use crate::{LoopServer, WebEdit, WebReply};
use nuc_base::{Counters, Name, Node, NodeId, Path};
use nuc_blocks::Store;
use nuc_edits::Edits;
use nuc_paths::follow;
use std::alloc::Global;

impl LoopServer {
    /// Judges an edit by the last tree, and enters it where it is accepted. The blocks of what is written are stored, and each new version is recorded
    /// as an edit.
    pub fn web(
        &mut self,
        alloc: Global,
        edit: &WebEdit,
        store: &mut Store,
        edits: &mut Edits,
        ids: &mut Counters,
    ) -> WebReply
        requires versions { IsNext ids.old.next_ver edits.old.now.edits }
        requires identities { IsNextId ids.old.next_id self.old.now }
        ensures answers { WebAnswers (record { entries = self.old.now; blocks = store.old.now; edits = edits.old.now; ids = ids.old }) edit.now result (record { entries = self.new.now; blocks = store.new.now; edits = edits.new.now; ids = ids.new }) }
        ensures versions { IsNext ids.new.next_ver edits.new.now.edits }
        ensures identities { IsNextId ids.new.next_id self.new.now }
        ensures journal { IsJournal self.new.now }
        ensures settled { self.new.settled ≡ self.old.settled }
        ensures settled_blocks { store.new.settled ≡ store.old.settled }
        ensures settled_edits { edits.new.settled ≡ edits.old.settled }
    {
        // Contracts learn from it that the entries make a journal.
        let _ = self.journal();
        match follow(self.tree(), path_of(edit).names.as_slice()) {
            Some((parent, name)) => { self.web_at(alloc, edit, parent, name, store, edits, ids) }
            None => WebReply::NoParent,
        }
    }

    /// As `web`, for an edit whose path leads to the place of this name below this folder.
    fn web_at(
        &mut self,
        alloc: Global,
        edit: &WebEdit,
        parent: NodeId,
        name: &Name,
        store: &mut Store,
        edits: &mut Edits,
        ids: &mut Counters,
    ) -> WebReply
        requires journal { IsJournal self.old.now }
        requires folder { IsFolder (tree_of self.old.now) parent.0 }
        requires versions { IsNext ids.old.next_ver edits.old.now.edits }
        requires identities { IsNextId ids.old.next_id self.old.now }
        ensures answers { AnswersAt (record { entries = self.old.now; blocks = store.old.now; edits = edits.old.now; ids = ids.old }) edit.now (place_in parent.0 name.now) result (record { entries = self.new.now; blocks = store.new.now; edits = edits.new.now; ids = ids.new }) }
        ensures versions { IsNext ids.new.next_ver edits.new.now.edits }
        ensures identities { IsNextId ids.new.next_id self.new.now }
        ensures journal { IsJournal self.new.now }
        ensures settled { self.new.settled ≡ self.old.settled }
        ensures settled_blocks { store.new.settled ≡ store.old.settled }
        ensures settled_edits { edits.new.settled ≡ edits.old.settled }
    {
        match edit {
            WebEdit::Mkdir(_) => mkdir(self, alloc, parent, name, ids),
            WebEdit::Write(_, filling) => {
                write(self, alloc, parent, name, filling, store, edits, ids)
            }
            WebEdit::Move(_, to) => relocate(self, alloc, parent, name, to, ids),
            WebEdit::Remove(_) => remove(self, alloc, parent, name, edits, ids),
            WebEdit::Bit(_, on) => set_bit(self, alloc, parent, name, *on, ids),
        }
    }

    /// Enters a value that is known to be acceptable, by the web.
    pub(crate) fn enter(&mut self, alloc: Global, id: NodeId, value: Option<Node>) -> WebReply
        requires id { 0 < id.0 }
        requires kind { HasOldKind self.old.now id.0 value }
        requires legal { IsLegalValue (tree_of self.old.now) id.0 value }
        ensures answers { EnterAnswers self.old.now id.0 value result self.new.now }
        ensures journal { IsJournal self.new.now }
        ensures settled { self.new.settled ≡ self.old.settled }
    {
        match self.accept(alloc, id, &value, 0) {
            Ok(rev) => WebReply::Accepted(rev),
            Err(_) => WebReply::Memory,
        }
    }
}

/// The path of what is edited.
fn path_of(edit: &WebEdit) -> &Path
    ensures { result.now.names ≡ path_of edit.now }
{
    match edit {
        WebEdit::Mkdir(path)
        | WebEdit::Write(path, _)
        | WebEdit::Move(path, _)
        | WebEdit::Remove(path)
        | WebEdit::Bit(path, _) => path,
    }
}
