ghost use Rattle.std.specs.Prelude.{◌≡◌, ◌≢◌, ◌<◌, ◌++◌, [], ◌∷◌, List, None, Some, ℕ, OnOk, MatchBool, MatchOption, IfOk};
ghost use Rattle.std.specs.Option.{option_copied};
ghost use Rattle.std.specs.FinMap as map;
ghost use Rattle.nuc_base.specs.Names.{IsName};
ghost use Rattle.nuc_folder.specs.declared.item.Item.{Item};
ghost use Rattle.nuc_observe.specs.Keys.{KeyMap};
ghost use Rattle.nuc_observe.specs.Listing.{IsFirstBad, IsGood, IsGoodListing, IsShort, KeepsItemKind, kind_of};
ghost use Rattle.nuc_observe.specs.Seen.{HasSeen, place_of};

use crate::Keys;
use crate::item_place::ItemPlace;
use crate::item_size::MOST_BYTES;
use crate::seen::Seen;
use nuc_base::{Kind, Name, NameFault, TreeLike};
use nuc_folder::{Item, Key};
use nuc_hash::Content;
use std::alloc::{AllocError, Global};

/// The first item of a listing that is bad, counted from 1. None where each is good.
///
/// An item is bad whose key is 0 or an earlier item's, whose place is an earlier item's, whose parent is neither the folder
/// itself nor an earlier item that is a folder, whose name is no valid name, whose kind isn't that of its identity in Local,
/// or which is a file of more than `MOST_BYTES`. It takes time in the number of items, times its logarithm.
pub fn first_bad<T: TreeLike>(
    alloc: Global,
    items: &[Item],
    keys: &Keys,
    local: &T,
) -> Result<Option<u64>, AllocError>
    ensures { IfOk result (λ bad. IsFirstBad keys.now.now (T.nodes local.now) items.now bad) }
{
    let mut seen = Seen::new(alloc);
    for (index, item) in items.iter().enumerate() {
        let Some(place) = place_if_good(alloc, item, &seen, keys, local)? else {
            return Ok(Some(index as u64 + 1));
        };
        seen.add(item.key, kind_of(&item.content), place)?;
    }
    Ok(None)
}

/// The place of an item that is good after those that were seen. None where it is bad.
fn place_if_good<T: TreeLike>(
    alloc: Global,
    item: &Item,
    seen: &Seen,
    keys: &Keys,
    local: &T,
) -> Result<Option<ItemPlace>, AllocError>
    ensures { IfOk result (λ found. (earlier : List Item) → HasSeen seen.now earlier → MatchOption found
        (¬ (IsGood keys.now.now (T.nodes local.now) earlier item.now))
        (λ place. IsGood keys.now.now (T.nodes local.now) earlier item.now × (place ≡ place_of item.now))) }
{
    if !is_good_alone(item, keys, local) {
        return Ok(None);
    }
    if seen.has_key(item.key) || !seen.has_folder(item.parent) {
        return Ok(None);
    }
    let Some(name) = valid_name(alloc, item.name.as_slice())? else {
        return Ok(None);
    };
    let place = ItemPlace {
        parent: item.parent.0,
        name,
    };
    if seen.has_place(&place) {
        return Ok(None);
    }
    Ok(Some(place))
}

/// Whether its key, kind and size are good, whatever is listed before.
fn is_good_alone<T: TreeLike>(item: &Item, keys: &Keys, local: &T) -> bool
    ensures { let kind = kind_of item.now.content in MatchBool result
        ((0 < item.now.key.0) × KeepsItemKind keys.now.now (T.nodes local.now) item.now.key.0 kind × IsShort item.now.content)
        (¬ ((0 < item.now.key.0) × KeepsItemKind keys.now.now (T.nodes local.now) item.now.key.0 kind × IsShort item.now.content)) }
{
    item.key.0 > 0
        && keeps_kind(item.key, kind_of(&item.content), keys, local)
        && is_short(&item.content)
}

/// Whether the key's identity, where it has one, is of this kind in Local.
fn keeps_kind<T: TreeLike>(key: Key, kind: Kind, keys: &Keys, local: &T) -> bool
    ensures { MatchBool result (KeepsItemKind keys.now.now (T.nodes local.now) key.0 kind) (¬ (KeepsItemKind keys.now.now (T.nodes local.now) key.0 kind)) }
{
    let Some(id) = keys.id_of(key) else {
        return true;
    };
    match local.get(id) {
        Some(node) => node.kind == kind,
        None => true,
    }
}

/// Whether a file has at most `MOST_BYTES`. A folder always is.
pub fn is_short(content: &Option<Content>) -> bool
    ensures { MatchBool result (IsShort content.now) (¬ (IsShort content.now)) }
{
    match content {
        Some(content) => content.size() <= MOST_BYTES,
        None => true,
    }
}

pub(crate) fn kind_of(content: &Option<Content>) -> Kind
    ensures { result ≡ kind_of content.now }
{
    match content {
        Some(_) => Kind::File,
        None => Kind::Folder,
    }
}

/// The name of these bytes. None where they are no name.
pub fn valid_name(alloc: Global, bytes: &[u8]) -> Result<Option<Name>, AllocError>
    ensures { IfOk result (λ found. MatchOption found (¬ (IsName bytes.now)) (λ name. IsName bytes.now × (name ≡ bytes.now))) }
{
    match Name::new(alloc, bytes) {
        Ok(name) => Ok(Some(name)),
        Err(fault) if is_memory(&fault) => Err(AllocError),
        Err(_) => Ok(None),
    }
}

fn is_memory(fault: &NameFault) -> bool
    ensures { MatchBool result (fault.now ≡ NameFault.Memory) (fault.now ≢ NameFault.Memory) }
{
    matches!(fault, NameFault::Memory)
}
