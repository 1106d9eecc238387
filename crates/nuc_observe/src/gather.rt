ghost use Rattle.std.specs.Prelude.{◌≡◌, ◌++◌, IfOk, OnOk, option_map, option_to_list};
ghost use Rattle.nuc_observe.specs.Known.{before_of};
ghost use Rattle.std.specs.Option.{option_copied};
ghost use Rattle.nuc_observe.specs.Observed as observed;
ghost use Rattle.nuc_observe.specs.Versions as version;
ghost use Rattle.nuc_observe.specs.Observed.{known_node, next_ver_after_puts, observed_nodes, put_by, puts};

use crate::identities::{identity, number_after, own_id};
use crate::judge::kind_of;
use crate::{Keys, ObservedNode, kept_version};
use nuc_base::{Name, Node, NodeId, Place, TreeLike, Ver};
use nuc_edits::{Edit, EditKind, Edits};
use nuc_folder::{Item, Key};
use nuc_hash::Digest;
use nuc_lookup::Lookup;
use std::alloc::{AllocError, Global};

/// The nodes of a listing in its order, the edits that put new contents, and the next version.
#[derive(Drop)]
pub(crate) struct Gathered {
    pub(crate) nodes: Vec<ObservedNode>,
    pub(crate) edits: Vec<Edit>,
    pub(crate) next_ver: u64,
}

/// What there is before a scan, beside the listing.
#[derive(Drop)]
pub(crate) struct Known<'a, T> {
    pub(crate) keys: &'a Keys,
    pub(crate) remote: &'a T,
    pub(crate) local: &'a T,
    pub(crate) synced: &'a T,
    pub(crate) edits: &'a Edits,
}

pub(crate) fn gather<T: TreeLike>(
    alloc: Global,
    items: &[Item],
    by_key: &Lookup,
    known: &Known<T>,
    next_ver: u64,
) -> Result<Gathered, AllocError>
    ensures nodes { IfOk result (λ all. all.nodes.items ≡ observed_nodes (before_of T.nodes known.now) by_key.now.numbers next_ver items.now) }
    ensures edits { IfOk result (λ all. all.edits.items ≡ puts (before_of T.nodes known.now) by_key.now.numbers next_ver items.now) }
    ensures next { IfOk result (λ all. all.next_ver ≡ next_ver_after_puts (before_of T.nodes known.now) next_ver items.now) }
{
    let mut nodes = Vec::new(alloc);
    let mut edits = Vec::new(alloc);
    let mut next = next_ver;
    for item in items {
        let own = own_version(item, known);
        let ver = Ver(own.unwrap_or(next));
        let id = identity(by_key, item.key);
        let node = node_of(alloc, item, ver, by_key)?;
        nodes.push(ObservedNode { id, node })?;
        let edit = put_of(alloc, item, own, id, ver, known)?;
        push_any(&mut edits, edit)?;
        next = number_after(own, next)?;
    }
    Ok(Gathered {
        nodes,
        edits,
        next_ver: next,
    })
}

pub(crate) fn push_any(edits: &mut Vec<Edit>, edit: Option<Edit>) -> Result<(), AllocError>
    ensures { OnOk result (edits.new.items ≡ edits.old.items ++ option_to_list edit) }
{
    match edit {
        Some(edit) => Ok(edits.push(edit)?),
        None => Ok(()),
    }
}

/// The version of an item that isn't a new one: 0 for a folder, and for a file the one that it keeps, if any.
fn own_version<T: TreeLike>(item: &Item, known: &Known<T>) -> Option<u64>
    ensures { result ≡ observed.own_version (before_of T.nodes known.now) item.now }
{
    match &item.content {
        None => Some(0),
        Some(content) => number_of(kept(item.key, content.hash(), known)),
    }
}

fn kept<T: TreeLike>(key: Key, hash: &Digest, known: &Known<T>) -> Option<Ver>
    ensures { let b = before_of T.nodes known.now in result ≡ version.kept_version (version.has_hash b.edits hash.now) (known_node b.keys b.local key.0) (known_node b.keys b.synced key.0) (known_node b.keys b.remote key.0) }
{
    let local = known_node(known.keys, known.local, key);
    let synced = known_node(known.keys, known.synced, key);
    let remote = known_node(known.keys, known.remote, key);
    kept_version(local, synced, remote, hash, known.edits)
}

fn number_of(ver: Option<Ver>) -> Option<u64>
    ensures { result ≡ option_map (λ v. v.0) ver }
{
    match ver {
        Some(ver) => Some(ver.0),
        None => None,
    }
}

/// What a tree has of the key's identity.
fn known_node<'a, T: TreeLike>(keys: &Keys, tree: &'a T, key: Key) -> Option<&'a Node>
    ensures { option_copied result ≡ known_node keys.now.now (T.nodes tree.now) key.0 }
{
    match own_id(keys, key) {
        Some(id) => tree.get(NodeId(id)),
        None => None,
    }
}

/// The node of an item. Its name was found valid before.
fn node_of(alloc: Global, item: &Item, ver: Ver, by_key: &Lookup) -> Result<Node, AllocError>
    ensures { IfOk result (λ node. node ≡ observed.node_of by_key.now.numbers ver.0 item.now) }
{
    let name = Name::new(alloc, item.name.as_slice()).map_err(|_| AllocError)?;
    let parent = identity(by_key, item.parent);
    Ok(Node {
        place: Place { parent, name },
        kind: kind_of(&item.content),
        ver,
        bit: item.content.is_some() && item.bit,
    })
}

/// The edit of a file that gets a new version.
fn put_of<T: TreeLike>(
    alloc: Global,
    item: &Item,
    own: Option<u64>,
    id: NodeId,
    ver: Ver,
    known: &Known<T>,
) -> Result<Option<Edit>, AllocError>
    ensures { let b = before_of T.nodes known.now in IfOk result (λ edit. option_to_list edit ≡ put_by own item.now.content (observed.base_of (known_node b.keys b.local item.now.key.0)) id.0 ver.0) }
{
    let (None, Some(content)) = (own, &item.content) else {
        return Ok(None);
    };
    Ok(Some(Edit {
        ver,
        id,
        base: base_of(item, known),
        what: EditKind::Put(content.copy(alloc)?),
    }))
}

/// The version that Local has of the item, or 0.
fn base_of<T: TreeLike>(item: &Item, known: &Known<T>) -> Ver
    ensures { let b = before_of T.nodes known.now in result ≡ observed.base_of (known_node b.keys b.local item.now.key.0) }
{
    match known_node(known.keys, known.local, item.key) {
        Some(node) => node.ver,
        None => Ver(0),
    }
}
