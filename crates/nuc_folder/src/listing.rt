ghost use Rattle.std.specs.Prelude.{◌≡◌, ◌<◌, ◌+◌, ℕ, IfOk, OnOk};
ghost use Rattle.std.specs.Cmp.Lexicographic.{slice_cmp};
ghost use Rattle.std.specs.FinMap as map;
ghost use Rattle.std.specs.Option.{option_copied, option_map};
ghost use Rattle.std.specs.Ordering.{nat_cmp};
ghost use Rattle.nuc_base.specs.Trees.{IsThere, Steps};
ghost use Rattle.nuc_hash.specs.Content.{content_of};
ghost use Rattle.nuc_shelf.specs.Shelf.{IsShelf};
ghost use Rattle.nuc_folder.specs.Listing.{Adds, AreBelow, AreFound, AreInside, IsItemAt, IsListing};

use crate::{Item, Key};
use nuc_base::{NodeId, TreeLike};
use nuc_hash::Content;
use nuc_shelf::{Shelf, ShelfFile};
use sqlite_items::Items;
use std::alloc::{AllocError, Global};
use std::cmp::Ordering;

/// The listing of what is on a shelf.
pub(crate) fn listing(shelf: &Shelf, alloc: Global) -> Result<Items<Item>, AllocError>
    ensures { IfOk result (λ items. IsListing shelf.now.now items) }
{
    let mut items = Items::new(alloc);
    let count = shelf.tree().len();
    push_below(shelf, alloc, Key(0), u128::from(count) + 1, &mut items)?;
    Ok(items)
}

/// The items of what is below a key, as a listing has them.
pub(crate) fn listing_below(
    shelf: &Shelf,
    alloc: Global,
    key: Key,
) -> Result<Items<Item>, AllocError>
    ensures { IfOk result (λ items. AreBelow shelf.now.now key.0 items) }
{
    let mut items = Items::new(alloc);
    let count = shelf.tree().len();
    push_below(shelf, alloc, key, u128::from(count) + 1, &mut items)?;
    Ok(items)
}

/// Adds the items of all that is below a key. A walk from there down takes fewer than `left` steps.
fn push_below(
    shelf: &Shelf,
    alloc: Global,
    key: Key,
    left: u128,
    items: &mut Items<Item>,
) -> Result<(), AllocError>
    requires shelf { IsShelf shelf.now.now }
    requires room { (k : ℕ) → Steps shelf.now.now.tree 0 key.0 k → map.len shelf.now.now.tree < k + left }
    ensures { OnOk result (Adds shelf.now.now key.0 items.old items.new) }
{
    for item in inside(shelf, alloc, key)? {
        let key = item.key;
        items.push(item)?;
        push_below(shelf, alloc, key, left - 1, items)?;
    }
    Ok(())
}

/// The items of what is in a folder itself, in the order of the names.
fn inside(shelf: &Shelf, alloc: Global, key: Key) -> Result<Vec<Item>, AllocError>
    requires { IsShelf shelf.now.now }
    ensures { IfOk result (λ items. AreInside shelf.now.now key.0 items.items) }
{
    let mut items = found(shelf, alloc, key)?;
    items.sort_by(
        |a: &Item, b: &Item| -> Ordering
            ensures { result ≡ slice_cmp nat_cmp a.now.name b.now.name }
        { a.name.as_slice().cmp(b.name.as_slice()) },
    )?;
    Ok(items)
}

/// The items of what is in a folder itself, in the order of the keys.
fn found(shelf: &Shelf, alloc: Global, key: Key) -> Result<Vec<Item>, AllocError>
    ensures { IfOk result (λ items. AreFound shelf.now.now key.0 items.items) }
{
    let mut items = Vec::new(alloc);
    for i in 0..shelf.tree().len() {
        let Some(child) = shelf.tree().child(NodeId(key.0), i) else {
            return Ok(items);
        };
        items.push(item_at(shelf, alloc, child)?)?;
    }
    Ok(items)
}

/// The item of what stands at a key.
pub(crate) fn item_at(shelf: &Shelf, alloc: Global, id: NodeId) -> Result<Item, AllocError>
    requires { IsThere shelf.now.now.tree id.0 }
    ensures { IfOk result (λ item. IsItemAt id.0 (map.get shelf.now.now.tree id.0) (map.get shelf.now.now.bytes id.0) item) }
{
    let Some(node) = shelf.tree().get(id) else {
        unreachable!()
    };
    let content = content_at(shelf.file(id.0), alloc)?;
    let name = Items::from_slice(alloc, node.place.name.bytes())?;
    Ok(Item {
        key: Key(id.0),
        parent: Key(node.place.parent.0),
        content,
        name,
        bit: node.bit,
    })
}

/// What a file holds.
fn content_at(file: Option<&ShelfFile>, alloc: Global) -> Result<Option<Content>, AllocError>
    ensures { IfOk result (λ content. content ≡ option_map content_of (option_copied file.entry)) }
{
    match file {
        Some(file) => Ok(Some(file.content().copy(alloc)?)),
        None => Ok(None),
    }
}
