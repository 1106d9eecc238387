ghost use Rattle.std.specs.Prelude.{◌≡◌, ◌<◌, Some, IfOk, option_to_list, slice_get};
ghost use Rattle.std.specs.FinMap as map;
ghost use Rattle.nuc_observe.specs.Known.{before_of};
ghost use Rattle.nuc_observe.specs.Observed as observed;

use crate::Keys;
use crate::gather::{Known, push_any};
use crate::identities::number_after;
use nuc_base::{Kind, NodeId, TreeLike, Ver};
use nuc_edits::{Edit, EditKind};
use nuc_lookup::Lookup;
use std::alloc::{AllocError, Global};

/// The edits that delete, and the next version.
#[derive(Drop)]
pub(crate) struct Deletions {
    pub(crate) edits: Vec<Edit>,
    pub(crate) next_ver: u64,
}

/// The deletions of Local's files that aren't listed, in order of identity.
pub(crate) fn deletions_of<T: TreeLike>(
    alloc: Global,
    by_key: &Lookup,
    known: &Known<T>,
    next_ver: u64,
) -> Result<Deletions, AllocError>
    ensures edits { IfOk result (λ all. all.edits.items ≡ observed.deletions (before_of T.nodes known.now) by_key.now.numbers next_ver (map.keys (T.nodes known.now.local.now))) }
    ensures next { IfOk result (λ all. all.next_ver ≡ observed.next_ver_after_deletions (before_of T.nodes known.now) by_key.now.numbers next_ver (map.keys (T.nodes known.now.local.now))) }
{
    let mut edits = Vec::new(alloc);
    let mut next = next_ver;
    for i in 0..known.local.len() {
        let id = nth(known.local, i);
        let base = gone(by_key, known, id);
        let own = own_number(base);
        push_any(&mut edits, deletion_of(base, own.unwrap_or(next), id))?;
        next = number_after(own, next)?;
    }
    Ok(Deletions {
        edits,
        next_ver: next,
    })
}

fn nth<T: TreeLike>(tree: &T, i: u64) -> NodeId
    requires { i < map.len (T.nodes tree.now) }
    ensures { slice_get (map.keys (T.nodes tree.now)) i ≡ Some result.0 }
{
    match tree.nth(i) {
        Some(id) => id,
        None => unreachable!(),
    }
}

/// The version of a file of Local that isn't listed.
fn gone<T: TreeLike>(by_key: &Lookup, known: &Known<T>, id: NodeId) -> Option<Ver>
    ensures { result ≡ observed.gone (before_of T.nodes known.now) by_key.now.numbers id.0 }
{
    if is_listed(by_key, known.keys, id) {
        return None;
    }
    let node = known.local.get(id)?;
    match node.kind {
        Kind::Folder => None,
        Kind::File => Some(node.ver),
    }
}

fn is_listed(by_key: &Lookup, keys: &Keys, id: NodeId) -> bool
    ensures { result ≡ observed.is_listed keys.now.now by_key.now.numbers id.0 }
{
    match keys.key_of(id) {
        Some(key) => by_key.get(key.0).is_some(),
        None => false,
    }
}

/// Only a file that is gone draws a version.
fn own_number(base: Option<Ver>) -> Option<u64>
    ensures { result ≡ observed.own_of_gone base }
{
    match base {
        Some(_) => None,
        None => Some(0),
    }
}

fn deletion_of(base: Option<Ver>, ver: u64, id: NodeId) -> Option<Edit>
    ensures { option_to_list result ≡ observed.deletion_of base ver id.0 }
{
    let base = base?;
    Some(Edit {
        ver: Ver(ver),
        id,
        base,
        what: EditKind::Deleted,
    })
}
