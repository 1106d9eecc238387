ghost use Rattle.std.specs.Prelude.{◌≡◌, ◌<◌, IfOk, MatchBool, MatchOption, None, IfSome, option_map};
ghost use Rattle.nuc_base.specs.Kinds.{FitsKind};
ghost use Rattle.nuc_base.specs.Legal.{LegalPut};
ghost use Rattle.nuc_observe.specs.Keys.{IsUnheld};
ghost use Rattle.nuc_step.specs.Watching as watching;
ghost use Rattle.nuc_step.specs.Watching.{IsBit, IsMade, IsMoved, IsRemoved, IsWritten, LeadsTo, MadeIn, MayCome, known_of, parent_of};
ghost use Rattle.nuc_step.specs.declared.watched.Watched.{Watched};

use crate::watched::{Turn, Watched};
use nuc_base::{Counters, Kind, Name, Node, NodeId, Place, TreeLike, Ver};
use nuc_edits::{Edit, EditKind, Edits};
use nuc_folder::{Item, Key, KeyPlace, Noticed};
use nuc_hash::Content;
use nuc_observe::{Keys, MOST_BYTES, is_short, kept_version, own_id, valid_name};
use nuc_replica::Local;
use std::alloc::{AllocError, Global};

/// What a change of the folder leads to, by the trees and the edits. None where the folder is to be scanned again.
pub(crate) fn leads_to<T: TreeLike>(
    alloc: Global,
    remote: &T,
    local: &Local<T>,
    synced: &T,
    edits: &Edits,
    ids: &Counters,
    change: &Noticed,
) -> Result<Option<Watched>, AllocError>
    requires id { 0 < ids.now.next_id }
    requires version { 0 < ids.now.next_ver }
    ensures { let Due : Watched → Type 0 = λ d. LeadsTo (T.nodes remote.now) local.now.now (T.nodes synced.now) edits.now.now.edits ids.now change.now d in
        IfOk result (λ found. MatchOption found ((d : Watched) → ¬ (Due d)) Due) }
{
    match change {
        Noticed::Made(item) => made(alloc, local, ids, item),
        Noticed::Written(key, content) => {
            let next_ver = ids.next_ver;
            written(alloc, remote, local, synced, edits, next_ver, *key, content)
        }
        Noticed::Moved(key, place) => moved(alloc, local, *key, place),
        Noticed::Removed(key) => Ok(removed(local, ids.next_ver, *key)),
        Noticed::Bit(key, bit) => with_bit(alloc, local, *key, *bit),
    }
}

/// Somebody new, at the next identity.
fn made<T: TreeLike>(
    alloc: Global,
    local: &Local<T>,
    ids: &Counters,
    item: &Item,
) -> Result<Option<Watched>, AllocError>
    requires id { 0 < ids.now.next_id }
    requires version { 0 < ids.now.next_ver }
    ensures { IfOk result (λ found. MatchOption found ((d : Watched) → ¬ (IsMade local.now.now ids.now item.now d)) (IsMade local.now.now ids.now item.now)) }
{
    if !may_come(local, item) {
        return Ok(None);
    }
    match parent_id(local, item.parent) {
        Some(parent) => made_in(alloc, local, ids, item, parent),
        None => Ok(None),
    }
}

fn may_come<T: TreeLike>(local: &Local<T>, item: &Item) -> bool
    ensures { MatchBool result (MayCome local.now.now item.now) (¬ (MayCome local.now.now item.now)) }
{
    item.key.0 > 0 && is_unheld(local.keys(), item.key) && is_short(&item.content)
}

fn made_in<T: TreeLike>(
    alloc: Global,
    local: &Local<T>,
    ids: &Counters,
    item: &Item,
    parent: NodeId,
) -> Result<Option<Watched>, AllocError>
    requires id { 0 < ids.now.next_id }
    requires version { 0 < ids.now.next_ver }
    ensures { IfOk result (λ found. MatchOption found ((d : Watched) → ¬ (MadeIn local.now.now ids.now item.now d parent.0)) (λ d. MadeIn local.now.now ids.now item.now d parent.0)) }
{
    let Some(name) = valid_name(alloc, item.name.as_slice())? else {
        return Ok(None);
    };
    let node = made_node(ids.next_ver, parent, name, item);
    let id = NodeId(ids.next_id);
    if !is_legal(local, id, &node) {
        return Ok(None);
    }
    let edit = made_edit(alloc, ids, item)?;
    let turn = Turn::Add(item.key, node);
    Ok(Some(Watched { id, turn, edit }))
}

/// The node of somebody new. A file has the next version.
fn made_node(next_ver: u64, parent: NodeId, name: Name, item: &Item) -> Node
    requires named { name ≡ item.now.name }
    ensures node { result ≡ watching.made_node next_ver parent.0 item.now }
    ensures fits { 0 < next_ver → FitsKind result }
{
    let place = Place { parent, name };
    match &item.content {
        Some(_) => Node {
            place,
            kind: Kind::File,
            ver: Ver(next_ver),
            bit: item.bit,
        },
        None => Node {
            place,
            kind: Kind::Folder,
            ver: Ver(0),
            bit: false,
        },
    }
}

/// The edit of a new file.
fn made_edit(alloc: Global, ids: &Counters, item: &Item) -> Result<Option<Edit>, AllocError>
    ensures { IfOk result (λ edit. edit ≡ option_map (watching.edit_of ids.now.next_ver ids.now.next_id (record { 0 = 0 })) item.now.content) }
{
    match &item.content {
        Some(content) => {
            let id = NodeId(ids.next_id);
            Ok(Some(edit_of(alloc, ids.next_ver, id, Ver(0), content)?))
        }
        None => Ok(None),
    }
}

fn edit_of(
    alloc: Global,
    ver: u64,
    id: NodeId,
    base: Ver,
    content: &Content,
) -> Result<Edit, AllocError>
    ensures { IfOk result (λ edit. edit ≡ watching.edit_of ver id.0 base content.now) }
{
    Ok(Edit {
        ver: Ver(ver),
        id,
        base,
        what: EditKind::Put(content.copy(alloc)?),
    })
}

/// Who in Local has a key, with the node.
#[derive(Drop)]
struct Holder<'a> {
    id: NodeId,
    node: &'a Node,
}

fn holder_of<'a, T: TreeLike>(local: &'a Local<T>, key: Key) -> Option<Holder<'a>>
    ensures known { option_map (λ k. (k.id.0, k.node.now)) result ≡ known_of local.now.now key.0 }
    ensures sound { IfSome result (λ k. (0 < k.id.0) × FitsKind k.node.now) }
{
    let id = NodeId(own_id(local.keys(), key)?);
    let node = local.tree().get(id)?;
    Some(Holder { id, node })
}

/// A file has this content now.
fn written<T: TreeLike>(
    alloc: Global,
    remote: &T,
    local: &Local<T>,
    synced: &T,
    edits: &Edits,
    next_ver: u64,
    key: Key,
    content: &Content,
) -> Result<Option<Watched>, AllocError>
    ensures { let Due : Watched → Type 0 = IsWritten (T.nodes remote.now) local.now.now (T.nodes synced.now) edits.now.now.edits next_ver key.0 content.now in
        IfOk result (λ found. MatchOption found ((d : Watched) → ¬ (Due d)) Due) }
{
    if content.size() > MOST_BYTES {
        return Ok(None);
    }
    match holder_of(local, key) {
        Some(known) if known.node.kind == Kind::File => {
            let own = own_version(remote, synced, edits, &known, content);
            Ok(Some(rewritten(alloc, &known, own, next_ver, content)?))
        }
        _ => Ok(None),
    }
}

/// The version that a file has already which has this content.
fn own_version<T: TreeLike>(
    remote: &T,
    synced: &T,
    edits: &Edits,
    known: &Holder,
    content: &Content,
) -> Option<u64>
    ensures { result ≡ watching.own_version edits.now.now.edits (T.nodes remote.now) (T.nodes synced.now) content.now known.now.id.0 known.now.node.now }
{
    let (synced, remote) = (synced.get(known.id), remote.get(known.id));
    let kept = kept_version(Some(known.node), synced, remote, content.hash(), edits)?;
    Some(kept.0)
}

/// A file has this version of its own, or the next one with this content.
fn rewritten(
    alloc: Global,
    known: &Holder,
    own: Option<u64>,
    next_ver: u64,
    content: &Content,
) -> Result<Watched, AllocError>
    ensures { IfOk result (λ d. d ≡ watching.written own next_ver content.now known.now.id.0 known.now.node.now) }
{
    let id = known.id;
    let mut node = known.node.copy(alloc)?;
    let edit = match own {
        Some(_) => None,
        None => Some(edit_of(alloc, next_ver, id, node.ver, content)?),
    };
    node.ver = Ver(own.unwrap_or(next_ver));
    let turn = Turn::Put(node);
    Ok(Watched { id, turn, edit })
}

/// Somebody stands at this place now.
fn moved<T: TreeLike>(
    alloc: Global,
    local: &Local<T>,
    key: Key,
    place: &KeyPlace,
) -> Result<Option<Watched>, AllocError>
    ensures { IfOk result (λ found. MatchOption found ((d : Watched) → ¬ (IsMoved local.now.now key.0 place.now d)) (IsMoved local.now.now key.0 place.now)) }
{
    let Some(parent) = parent_id(local, place.parent) else {
        return Ok(None);
    };
    let Some(known) = holder_of(local, key) else {
        return Ok(None);
    };
    let name = place.name.copy(alloc)?;
    let node = known.node.copy(alloc)?.moved_to(Place { parent, name });
    if !is_legal(local, known.id, &node) {
        return Ok(None);
    }
    Ok(Some(put(known.id, node)))
}

/// Somebody goes in whom nothing stands.
fn removed<T: TreeLike>(local: &Local<T>, next_ver: u64, key: Key) -> Option<Watched>
    ensures { MatchOption result ((d : Watched) → ¬ (IsRemoved local.now.now next_ver key.0 d)) (IsRemoved local.now.now next_ver key.0) }
{
    let known = holder_of(local, key)?;
    if local.tree().has_child(known.id) {
        return None;
    }
    let id = known.id;
    let edit = deletion_of(known.node.kind, next_ver, id, known.node.ver);
    let turn = Turn::Cut;
    Some(Watched { id, turn, edit })
}

/// A file has this bit now.
fn with_bit<T: TreeLike>(
    alloc: Global,
    local: &Local<T>,
    key: Key,
    bit: bool,
) -> Result<Option<Watched>, AllocError>
    ensures { IfOk result (λ found. MatchOption found ((d : Watched) → ¬ (IsBit local.now.now key.0 bit d)) (IsBit local.now.now key.0 bit)) }
{
    match holder_of(local, key) {
        Some(known) if known.node.kind == Kind::File => {
            let mut node = known.node.copy(alloc)?;
            node.bit = bit;
            Ok(Some(put(known.id, node)))
        }
        _ => Ok(None),
    }
}

/// Who is there has this node from now on, without an edit.
fn put(id: NodeId, node: Node) -> Watched
    ensures { result ≡ record { id = id; turn = Turn.Put node; edit = None } }
{
    Watched {
        id,
        turn: Turn::Put(node),
        edit: None,
    }
}

/// The edit that deletes a file; a folder has none.
fn deletion_of(kind: Kind, ver: u64, id: NodeId, base: Ver) -> Option<Edit>
    ensures { result ≡ watching.deletion_of kind ver id.0 base }
{
    match kind {
        Kind::Folder => None,
        Kind::File => Some(Edit {
            ver: Ver(ver),
            id,
            base,
            what: EditKind::Deleted,
        }),
    }
}

/// The folder of Local that has the key; the folder itself is the root.
fn parent_id<T: TreeLike>(local: &Local<T>, key: Key) -> Option<NodeId>
    ensures { option_map (λ x. x.0) result ≡ parent_of local.now.now key.0 }
{
    if key.0 == 0 {
        return Some(NodeId(0));
    }
    match holder_of(local, key) {
        Some(known) if known.node.kind == Kind::Folder => Some(known.id),
        _ => None,
    }
}

fn is_unheld(keys: &Keys, key: Key) -> bool
    ensures { MatchBool result (IsUnheld keys.now.now key.0) (¬ (IsUnheld keys.now.now key.0)) }
{
    match keys.id_of(key) {
        Some(_) => false,
        None => true,
    }
}

fn is_legal<T: TreeLike>(local: &Local<T>, id: NodeId, node: &Node) -> bool
    requires id { 0 < id.0 }
    requires fits { FitsKind node.now }
    ensures { MatchBool result (LegalPut local.now.now.tree id.0 node.now) (¬ (LegalPut local.now.now.tree id.0 node.now)) }
{
    local.tree().check_put(id, node).is_ok()
}
