ghost use Rattle.std.specs.Prelude.{◌≡◌, ◌<◌, ◌+◌, IfOk, IfSome, OnErr, Some};
ghost use Rattle.std.specs.FinMap.{get};
ghost use Rattle.std.specs.Option.{option_copied};
ghost use Rattle.nuc_base.specs.Legal.{LegalPut};
ghost use Rattle.nuc_base.specs.Trees.{IsFolder, IsVacant};
ghost use Rattle.nuc_edits.specs.Edits.{IsNext, both_same};
ghost use Rattle.nuc_hash.specs.Content as hash;
ghost use Rattle.nuc_hash.specs.Filling.{filling_bytes};
ghost use Rattle.nuc_journal.specs.Entries.{tree_of};
ghost use Rattle.nuc_journal.specs.Journal.{HadKind, IsJournal};
ghost use Rattle.nuc_paths.specs.Paths.{place_in};
ghost use Rattle.nuc_server.specs.WebEdits.{IsNextId, OnlyGained, WriteAnswers, Writes, WritesNew, WritesOver, WebState, file_at};

use crate::{LoopServer, WebReply};
use nuc_base::{Counters, Kind, Name, Node, NodeId, Place, Ver};
use nuc_blocks::{Store, keep_blocks};
use nuc_edits::{EditKind, Edits};
use nuc_hash::{Content, Filling, content_of};
use nuc_paths::holder;
use std::alloc::{AllocError, Global};

/// Gives the file of this name below a folder these bytes, or makes it with them.
pub(crate) fn write(
    server: &mut LoopServer,
    alloc: Global,
    parent: NodeId,
    name: &Name,
    filling: &Filling,
    store: &mut Store,
    edits: &mut Edits,
    ids: &mut Counters,
) -> WebReply
    requires folder { IsFolder (tree_of server.old.now) parent.0 }
    requires versions { IsNext ids.old.next_ver edits.old.now.edits }
    requires journal { IsJournal server.old.now }
    requires identities { IsNextId ids.old.next_id server.old.now }
    ensures answers { WriteAnswers (record { entries = server.old.now; blocks = store.old.now; edits = edits.old.now; ids = ids.old }) (place_in parent.0 name.now) (filling_bytes filling.now) result (record { entries = server.new.now; blocks = store.new.now; edits = edits.new.now; ids = ids.new }) }
    ensures versions { IsNext ids.new.next_ver edits.new.now.edits }
    ensures identities { IsNextId ids.new.next_id server.new.now }
    ensures journal { IsJournal server.new.now }
    ensures settled { server.new.settled ≡ server.old.settled }
    ensures settled_blocks { store.new.settled ≡ store.old.settled }
    ensures settled_edits { edits.new.settled ≡ edits.old.settled }
{
    match holder(server.tree(), parent, name) {
        Some((id, node)) => match (node.copy(alloc), filling.bytes(alloc)) {
            (Ok(node), Ok(bytes)) => {
                let bytes = bytes.as_slice();
                write_over(server, alloc, id, node, bytes, store, edits, ids)
            }
            _ => WebReply::Memory,
        },
        None => match filling.bytes(alloc) {
            Ok(bytes) => {
                let bytes = bytes.as_slice();
                write_new(server, alloc, parent, name, bytes, store, edits, ids)
            }
            Err(_) => WebReply::Memory,
        },
    }
}

/// Makes a file at a place that nobody has.
fn write_new(
    server: &mut LoopServer,
    alloc: Global,
    parent: NodeId,
    name: &Name,
    bytes: &[u8],
    store: &mut Store,
    edits: &mut Edits,
    ids: &mut Counters,
) -> WebReply
    requires folder { IsFolder (tree_of server.old.now) parent.0 }
    requires vacant { IsVacant (tree_of server.old.now) (place_in parent.0 name.now) }
    requires versions { IsNext ids.old.next_ver edits.old.now.edits }
    requires journal { IsJournal server.old.now }
    requires identities { IsNextId ids.old.next_id server.old.now }
    ensures answers { WritesNew (record { entries = server.old.now; blocks = store.old.now; edits = edits.old.now; ids = ids.old }) (place_in parent.0 name.now) bytes.now result (record { entries = server.new.now; blocks = store.new.now; edits = edits.new.now; ids = ids.new }) }
    ensures versions { IsNext ids.new.next_ver edits.new.now.edits }
    ensures identities { IsNextId ids.new.next_id server.new.now }
    ensures journal { IsJournal server.new.now }
    ensures settled { server.new.settled ≡ server.old.settled }
    ensures settled_blocks { store.new.settled ≡ store.old.settled }
    ensures settled_edits { edits.new.settled ≡ edits.old.settled }
{
    let Some(next_id) = ids.next_id.checked_add(1) else {
        return WebReply::Memory;
    };
    let Ok(node) = new_file(alloc, parent, name) else {
        return WebReply::Memory;
    };
    let Ok(content) = content_of(alloc, bytes) else {
        return WebReply::Memory;
    };
    let id = NodeId(ids.next_id);
    match put_version(server, alloc, id, node, bytes, content, store, edits, ids) {
        Ok(rev) => {
            ids.next_id = next_id;
            WebReply::Accepted(rev)
        }
        Err(_) => WebReply::Memory,
    }
}

/// A file without a version yet.
fn new_file(alloc: Global, parent: NodeId, name: &Name) -> Result<Node, AllocError>
    ensures { IfOk result (λ node. node ≡ file_at (place_in parent.0 name.now) 0) }
{
    let name = name.copy(alloc)?;
    Ok(Node {
        place: Place { parent, name },
        kind: Kind::File,
        ver: Ver(0),
        bit: false,
    })
}

/// Gives an identity that has a node other bytes, where it is a file that has others.
fn write_over(
    server: &mut LoopServer,
    alloc: Global,
    id: NodeId,
    node: Node,
    bytes: &[u8],
    store: &mut Store,
    edits: &mut Edits,
    ids: &mut Counters,
) -> WebReply
    requires node { get (tree_of server.old.now) id.0 ≡ Some node }
    requires versions { IsNext ids.old.next_ver edits.old.now.edits }
    requires journal { IsJournal server.old.now }
    requires identities { IsNextId ids.old.next_id server.old.now }
    ensures answers { WritesOver (record { entries = server.old.now; blocks = store.old.now; edits = edits.old.now; ids = ids.old }) id.0 node bytes.now result (record { entries = server.new.now; blocks = store.new.now; edits = edits.new.now; ids = ids.new }) }
    ensures versions { IsNext ids.new.next_ver edits.new.now.edits }
    ensures identities { IsNextId ids.new.next_id server.new.now }
    ensures journal { IsJournal server.new.now }
    ensures settled { server.new.settled ≡ server.old.settled }
    ensures settled_blocks { store.new.settled ≡ store.old.settled }
    ensures settled_edits { edits.new.settled ≡ edits.old.settled }
{
    if node.kind == Kind::Folder {
        return WebReply::KindChanged;
    }
    let Ok(content) = content_of(alloc, bytes) else {
        return WebReply::Memory;
    };
    if has_hash(edits.content(node.ver), &content) {
        return WebReply::Same;
    }
    match put_version(server, alloc, id, node, bytes, content, store, edits, ids) {
        Ok(rev) => WebReply::Accepted(rev),
        Err(_) => WebReply::Memory,
    }
}

/// Whether a content is known, and has the hash of the other.
fn has_hash(known: Option<&Content>, content: &Content) -> bool
    ensures { result ≡ both_same (option_copied known.entry) (Some content.now) }
{
    match known {
        Some(known) => known.hash().0 == content.hash().0,
        None => false,
    }
}

/// Gives an identity this file's node, but with the next version, whose content this is, of these bytes.
fn put_version(
    server: &mut LoopServer,
    alloc: Global,
    id: NodeId,
    mut node: Node,
    bytes: &[u8],
    content: Content,
    store: &mut Store,
    edits: &mut Edits,
    ids: &mut Counters,
) -> Result<u64, AllocError>
    requires journal { IsJournal server.old.now }
    requires id { 0 < id.0 }
    requires file { node.kind ≡ Kind.File }
    requires kind { HadKind server.old.now id.0 Kind.File }
    requires legal { LegalPut (tree_of server.old.now) id.0 node }
    requires content { content ≡ hash.content_of bytes.now }
    requires versions { IsNext ids.old.next_ver edits.old.now.edits }
    ensures ok { IfOk result (λ rev. Writes (record { entries = server.old.now; blocks = store.old.now; edits = edits.old.now; ids = ids.old }) id.0 (record node { ver = record { 0 = ids.old.next_ver } }) node.ver.0 bytes.now rev (record { entries = server.new.now; blocks = store.new.now; edits = edits.new.now; ids = ids.new })) }
    ensures ids { IfOk result (λ _. ids.new ≡ record ids.old { next_ver = ids.old.next_ver + 1 }) }
    ensures err { OnErr result (OnlyGained (record { entries = server.old.now; blocks = store.old.now; edits = edits.old.now; ids = ids.old }) (record { entries = server.new.now; blocks = store.new.now; edits = edits.new.now; ids = ids.new })) }
    ensures versions { IsNext ids.new.next_ver edits.new.now.edits }
    ensures journal { IsJournal server.new.now }
    ensures settled { server.new.settled ≡ server.old.settled }
    ensures settled_blocks { store.new.settled ≡ store.old.settled }
    ensures settled_edits { edits.new.settled ≡ edits.old.settled }
{
    server.reserve(alloc)?;
    keep_blocks(store, alloc, bytes, content.blocks())?;
    let ver = edits.enter(ids, id, node.ver, EditKind::Put(content))?;
    node.ver = ver;
    match server.accept(alloc, id, &Some(node), 0) {
        Ok(rev) => Ok(rev),
        Err(_) => unreachable!(),
    }
}
