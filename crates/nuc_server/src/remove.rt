ghost use Rattle.std.specs.Prelude.{◌≡◌, ◌<◌, ◌+◌, IfOk, None, OnErr, OnOk};
ghost use Rattle.nuc_base.specs.Legal.{LegalCut};
ghost use Rattle.nuc_edits.specs.Edits.{IsNext};
ghost use Rattle.nuc_journal.specs.Entries.{tree_of};
ghost use Rattle.nuc_journal.specs.Journal.{IsJournal};
ghost use Rattle.nuc_paths.specs.Paths.{place_in};
ghost use Rattle.nuc_server.specs.WebEdits.{Enters, IsNextId, RemoveAnswers, with_edit};

use crate::{LoopServer, WebReply};
use nuc_base::{Counters, Kind, Name, NodeId, TreeLike, Ver};
use nuc_edits::{EditKind, Edits};
use nuc_paths::holder;
use std::alloc::{AllocError, Global};

/// Removes what has this name below a folder. The end of a file is recorded as an edit.
pub(crate) fn remove(
    server: &mut LoopServer,
    alloc: Global,
    parent: NodeId,
    name: &Name,
    edits: &mut Edits,
    ids: &mut Counters,
) -> WebReply
    requires versions { IsNext ids.old.next_ver edits.old.now.edits }
    requires journal { IsJournal server.old.now }
    requires identities { IsNextId ids.old.next_id server.old.now }
    ensures answers { RemoveAnswers server.old.now edits.old.now ids.old (place_in parent.0 name.now) result server.new.now edits.new.now ids.new }
    ensures versions { IsNext ids.new.next_ver edits.new.now.edits }
    ensures identities { IsNextId ids.new.next_id server.new.now }
    ensures journal { IsJournal server.new.now }
    ensures settled { server.new.settled ≡ server.old.settled }
    ensures settled_edits { edits.new.settled ≡ edits.old.settled }
{
    let tree = server.tree();
    let Some((id, node)) = holder(tree, parent, name) else {
        return WebReply::NoSuch;
    };
    if tree.has_child(id) {
        return WebReply::NotEmpty;
    }
    match node.kind {
        Kind::Folder => server.enter(alloc, id, None),
        Kind::File => {
            let ver = node.ver;
            match end_file(server, alloc, id, ver, edits, ids) {
                Ok(rev) => WebReply::Accepted(rev),
                Err(_) => WebReply::Memory,
            }
        }
    }
}

/// Removes a file that is known to be there, of this version, and records that.
fn end_file(
    server: &mut LoopServer,
    alloc: Global,
    id: NodeId,
    ver: Ver,
    edits: &mut Edits,
    ids: &mut Counters,
) -> Result<u64, AllocError>
    requires journal { IsJournal server.old.now }
    requires id { 0 < id.0 }
    requires legal { LegalCut (tree_of server.old.now) id.0 }
    requires versions { IsNext ids.old.next_ver edits.old.now.edits }
    ensures rev { IfOk result (λ rev. Enters server.old.now id.0 None rev server.new.now) }
    ensures edits { OnOk result (edits.new.now ≡ with_edit edits.old.now ids.old.next_ver id.0 ver.0 EditKind.Deleted) }
    ensures ids { OnOk result (ids.new ≡ record ids.old { next_ver = ids.old.next_ver + 1 }) }
    ensures err { OnErr result ((server.new.now ≡ server.old.now) × (edits.new.now ≡ edits.old.now) × (ids.new ≡ ids.old)) }
    ensures versions { IsNext ids.new.next_ver edits.new.now.edits }
    ensures journal { IsJournal server.new.now }
    ensures settled { server.new.settled ≡ server.old.settled }
    ensures settled_edits { edits.new.settled ≡ edits.old.settled }
{
    server.reserve(alloc)?;
    edits.enter(ids, id, ver, EditKind::Deleted)?;
    match server.accept(alloc, id, &None, 0) {
        Ok(rev) => Ok(rev),
        Err(_) => unreachable!(),
    }
}
