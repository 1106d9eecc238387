ghost use Rattle.std.specs.Prelude.{◌≡◌, ◌<◌, ◌≤◌, ◌+◌, ◌∷◌, ◌++◌, List, length, reverse, IfErr, IfOk, OnErr, OnOk};
ghost use Rattle.nuc_base.specs.Trees.{NoChild};
ghost use Rattle.nuc_shelf.specs.Shelf.{IsShelf, without};
ghost use Rattle.nuc_folder.specs.Listing.{keys_of};
ghost use Rattle.nuc_folder.specs.Removals.{ChildrenLater, FindsAll, Removes, all_cut, removed};
ghost use Rattle.nuc_folder.specs.UserEdits.{RemoveRefused};
ghost use Rattle.nuc_folder.specs.declared.noticed.Noticed.{Noticed};

use crate::listing::listing_below;
use crate::notices::Notices;
use crate::user_change::find;
use crate::{Item, Key, Noticed, UserReply};
use nuc_base::{NodeId, Path, TreeLike};
use nuc_shelf::Shelf;
use std::alloc::{AllocError, Global};

/// Removes what is at a path with all that is below it, and notes each. All room is made before the first goes.
pub(crate) fn remove(
    shelf: &mut Shelf,
    notices: &mut Notices,
    alloc: Global,
    path: &Path,
) -> Result<(), UserReply>
    ensures ok { OnOk result ((told : List Noticed) × Removes shelf.old.now path.now.names told shelf.new.now × (notices.new.now ≡ notices.old.now ++ told)) }
    ensures refused { IfErr result (λ reply. RemoveRefused shelf.old.now.tree path.now.names reply) }
    ensures err { OnErr result ((shelf.new.now ≡ shelf.old.now) × (notices.new.now ≡ notices.old.now)) }
    ensures settled { shelf.new.settled ≡ shelf.old.settled }
    ensures settled_notices { notices.new.settled ≡ notices.old.settled }
    ensures shelf { IsShelf shelf.new.now }
{
    let keys = keys_at(shelf, alloc, path)?;
    let count = keys.len() as u64;
    notices.reserve(count).map_err(|_| UserReply::Memory)?;
    shelf.reserve(count).map_err(|_| UserReply::Memory)?;
    cut_all(shelf, notices, keys);
    Ok(())
}

/// The keys of what is at a path and of all that is below it, in the order of the listing.
fn keys_at(shelf: &Shelf, alloc: Global, path: &Path) -> Result<Vec<u64>, UserReply>
    ensures ok { IfOk result (λ keys. FindsAll shelf.now.now path.now.names keys.items) }
    ensures refused { IfErr result (λ reply. RemoveRefused shelf.now.now.tree path.now.names reply) }
    ensures shelf { IsShelf shelf.now.now }
{
    let Some((id, _)) = find(shelf.tree(), path) else {
        return Err(UserReply::NoSuch);
    };
    let items = listing_below(shelf, alloc, Key(id.0)).map_err(|_| UserReply::Memory)?;
    keys_from(alloc, id.0, items.as_slice()).map_err(|_| UserReply::Memory)
}

fn keys_from(alloc: Global, key: u64, items: &[Item]) -> Result<Vec<u64>, AllocError>
    ensures { IfOk result (λ keys. keys.items ≡ key ∷ keys_of items.now) }
{
    let mut keys = Vec::new(alloc);
    keys.push(key)?;
    for item in items {
        keys.push(item.key.0)?;
    }
    Ok(keys)
}

/// Removes what has these keys, the last first, and notes each. It takes no memory.
fn cut_all(shelf: &mut Shelf, notices: &mut Notices, mut keys: Vec<u64>)
    requires room { length keys.items ≤ shelf.old.spare }
    requires told { length keys.items ≤ notices.old.room }
    requires later { ChildrenLater shelf.old.now.tree keys.items }
    requires shelf { IsShelf shelf.old.now }
    ensures now { shelf.new.now ≡ all_cut shelf.old.now (reverse keys.items) }
    ensures told { notices.new.now ≡ notices.old.now ++ removed (reverse keys.items) }
    ensures settled { shelf.new.settled ≡ shelf.old.settled }
    ensures settled_notices { notices.new.settled ≡ notices.old.settled }
    ensures shelf { IsShelf shelf.new.now }
{
    while let Some(key) = keys.pop() {
        cut(shelf, key);
        notices.push_reserved(Noticed::Removed(Key(key)));
    }
}

/// Removes what has this key, if anything has. It takes no memory.
fn cut(shelf: &mut Shelf, key: u64)
    requires room { 0 < shelf.old.spare }
    requires empty { NoChild shelf.old.now.tree key }
    requires shelf { IsShelf shelf.old.now }
    ensures now { shelf.new.now ≡ without shelf.old.now key }
    ensures settled { shelf.new.settled ≡ shelf.old.settled }
    ensures spare { shelf.old.spare ≤ shelf.new.spare + 1 }
    ensures shelf { IsShelf shelf.new.now }
{
    match shelf.tree().get(NodeId(key)) {
        Some(_) => {
            let Ok(()) = shelf.cut(key) else {
                unreachable!()
            };
        }
        None => {}
    }
}
