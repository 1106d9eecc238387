ghost use Rattle.std.specs.Prelude.{◌≡◌, ◌<◌, None, Some, false, ℕ, List, IfErr, IfOk, MatchOption, OnErr};
ghost use Rattle.std.specs.FinMap as map;
ghost use Rattle.std.specs.Option.{option_copied};
ghost use Rattle.nuc_base.specs.Trees.{IsFolder, IsVacant, WellFormed};
ghost use Rattle.nuc_paths.specs.Paths.{place_in};
ghost use Rattle.nuc_hash.specs.Filling.{filling_bytes};
ghost use Rattle.nuc_shelf.specs.Shelf.{IsFile, IsShelf, file_at, folder_at};
ghost use Rattle.nuc_folder.specs.Listing.{item_of};
ghost use Rattle.nuc_folder.specs.UserEdits.{BitRefused, Finds, FindsNobody, FindsPlace, MakeRefused, MakesFolder, MoveRefused, Moves, key_place, SetsBit, WriteRefused, Writes, WritesNew, WritesOver};

use crate::{Item, Key, KeyPlace, Noticed, UserReply};
use nuc_base::{Kind, Name, Node, NodeId, Path, Place, TreeLike};
use nuc_hash::{Content, Filling};
use nuc_paths::{follow, holder};
use nuc_shelf::{Shelf, ShelfFile};
use sqlite_items::Items;
use std::alloc::{AllocError, Global};

/// Makes a folder, under a new key.
pub(crate) fn mkdir(
    shelf: &mut Shelf,
    alloc: Global,
    key: u64,
    path: &Path,
) -> Result<Noticed, UserReply>
    requires key { 0 < key }
    requires absent { map.get shelf.old.now.tree key ≡ None }
    ensures ok { IfOk result (λ notice. MakesFolder key shelf.old.now path.now.names notice shelf.new.now) }
    ensures refused { IfErr result (λ reply. MakeRefused shelf.old.now.tree path.now.names reply) }
    ensures err { OnErr result (shelf.new.now ≡ shelf.old.now) }
    ensures settled { shelf.new.settled ≡ shelf.old.settled }
    ensures shelf { IsShelf shelf.new.now }
{
    let place = vacant_place(shelf.tree(), alloc, path)?;
    let item = item(alloc, key, &place, None).map_err(|_| UserReply::Memory)?;
    shelf.add_folder(key, place).map_err(|_| UserReply::Memory)?;
    Ok(Noticed::Made(item))
}

/// Makes a file, under a new key, or gives one that is there other bytes: those of a content that an edit gives.
pub(crate) fn fill(
    shelf: &mut Shelf,
    alloc: Global,
    key: u64,
    path: &Path,
    filling: &Filling,
) -> Result<Noticed, UserReply>
    requires key { 0 < key }
    requires absent { map.get shelf.old.now.tree key ≡ None }
    ensures ok { IfOk result (λ notice. Writes key shelf.old.now path.now.names (filling_bytes filling.now) notice shelf.new.now) }
    ensures refused { IfErr result (λ reply. WriteRefused shelf.old.now.tree path.now.names reply) }
    ensures err { OnErr result (shelf.new.now ≡ shelf.old.now) }
    ensures settled { shelf.new.settled ≡ shelf.old.settled }
    ensures shelf { IsShelf shelf.new.now }
{
    // Contracts learn from it that the shelf is sound.
    let _tree = shelf.tree();
    match filling.bytes(alloc) {
        Ok(bytes) => write(shelf, alloc, key, path, bytes.as_slice()),
        Err(_) => Err(UserReply::Memory),
    }
}

/// As `fill`, of the bytes themselves.
fn write(
    shelf: &mut Shelf,
    alloc: Global,
    key: u64,
    path: &Path,
    bytes: &[u8],
) -> Result<Noticed, UserReply>
    requires key { 0 < key }
    requires absent { map.get shelf.old.now.tree key ≡ None }
    ensures ok { IfOk result (λ notice. Writes key shelf.old.now path.now.names bytes.now notice shelf.new.now) }
    ensures refused { IfErr result (λ reply. WriteRefused shelf.old.now.tree path.now.names reply) }
    ensures err { OnErr result (shelf.new.now ≡ shelf.old.now) }
    ensures settled { shelf.new.settled ≡ shelf.old.settled }
    ensures shelf { IsShelf shelf.new.now }
{
    let tree = shelf.tree();
    let Some((parent, name)) = follow(tree, path.names.as_slice()) else {
        return Err(UserReply::NoParent);
    };
    let written = match holder(tree, parent, name) {
        None => write_new(shelf, alloc, key, parent, name, bytes),
        Some((id, node)) => match node.kind {
            Kind::Folder => return Err(UserReply::Kind),
            Kind::File => write_over(shelf, alloc, id.0, bytes),
        },
    };
    written.map_err(|_| UserReply::Memory)
}

/// Makes a file of this name in a folder, where nobody has the place.
fn write_new(
    shelf: &mut Shelf,
    alloc: Global,
    key: u64,
    parent: NodeId,
    name: &Name,
    bytes: &[u8],
) -> Result<Noticed, AllocError>
    requires key { 0 < key }
    requires absent { map.get shelf.old.now.tree key ≡ None }
    requires form { WellFormed shelf.old.now.tree }
    requires folder { IsFolder shelf.old.now.tree parent.0 }
    requires vacant { IsVacant shelf.old.now.tree (place_in parent.0 name.now) }
    ensures ok { IfOk result (λ notice. WritesNew key shelf.old.now (place_in parent.0 name.now) bytes.now notice shelf.new.now) }
    ensures err { OnErr result (shelf.new.now ≡ shelf.old.now) }
    ensures settled { shelf.new.settled ≡ shelf.old.settled }
    ensures shelf { IsShelf shelf.new.now }
{
    let _tree = shelf.tree();
    let name = name.copy(alloc)?;
    let place = Place { parent, name };
    let file = ShelfFile::of(alloc, bytes)?;
    let item = item(alloc, key, &place, Some(&file))?;
    shelf.put_file(key, place, file, false)?;
    Ok(Noticed::Made(item))
}

/// Gives a file other bytes.
fn write_over(
    shelf: &mut Shelf,
    alloc: Global,
    key: u64,
    bytes: &[u8],
) -> Result<Noticed, AllocError>
    requires { IsFile shelf.old.now.tree key }
    ensures ok { IfOk result (λ notice. WritesOver shelf.old.now key bytes.now notice shelf.new.now) }
    ensures err { OnErr result (shelf.new.now ≡ shelf.old.now) }
    ensures settled { shelf.new.settled ≡ shelf.old.settled }
    ensures shelf { IsShelf shelf.new.now }
{
    let _tree = shelf.tree();
    let file = ShelfFile::of(alloc, bytes)?;
    let content = file.content().copy(alloc)?;
    shelf.fill(key, file)?;
    Ok(Noticed::Written(Key(key), content))
}

/// Moves what is at one path to another.
pub(crate) fn move_to(
    shelf: &mut Shelf,
    alloc: Global,
    from: &Path,
    to: &Path,
) -> Result<Noticed, UserReply>
    ensures ok { IfOk result (λ notice. Moves shelf.old.now from.now.names to.now.names notice shelf.new.now) }
    ensures refused { IfErr result (λ reply. MoveRefused shelf.old.now.tree from.now.names to.now.names reply) }
    ensures err { OnErr result (shelf.new.now ≡ shelf.old.now) }
    ensures settled { shelf.new.settled ≡ shelf.old.settled }
    ensures shelf { IsShelf shelf.new.now }
{
    let tree = shelf.tree();
    let Some((id, _)) = find(tree, from) else {
        return Err(UserReply::NoSuch);
    };
    let place = match vacant_place(tree, alloc, to) {
        Ok(place) => place,
        Err(reply) => return Err(reply),
    };
    if tree.under(place.parent, id) {
        return Err(UserReply::Cycle);
    }
    let told = key_place(alloc, &place).map_err(|_| UserReply::Memory)?;
    shelf.move_to(id.0, place).map_err(|_| UserReply::Memory)?;
    Ok(Noticed::Moved(Key(id.0), told))
}

/// Says whether a file may be executed.
pub(crate) fn set_bit(
    shelf: &mut Shelf,
    alloc: Global,
    path: &Path,
    bit: bool,
) -> Result<Noticed, UserReply>
    ensures ok { IfOk result (λ notice. SetsBit shelf.old.now path.now.names bit notice shelf.new.now) }
    ensures refused { IfErr result (λ reply. BitRefused shelf.old.now.tree path.now.names reply) }
    ensures err { OnErr result (shelf.new.now ≡ shelf.old.now) }
    ensures settled { shelf.new.settled ≡ shelf.old.settled }
    ensures shelf { IsShelf shelf.new.now }
{
    let Some((id, node)) = find(shelf.tree(), path) else {
        return Err(UserReply::NoSuch);
    };
    match node.kind {
        Kind::Folder => Err(UserReply::Kind),
        Kind::File => {
            shelf
                .set_bit(alloc, id.0, bit)
                .map_err(|_| UserReply::Memory)?;
            Ok(Noticed::Bit(Key(id.0), bit))
        }
    }
}

/// To whom a path leads.
pub(crate) fn find<'a, T: TreeLike>(tree: &'a T, path: &Path) -> Option<(NodeId, &'a Node)>
    requires { WellFormed (T.nodes tree.now) }
    ensures { MatchOption result
        (FindsNobody (T.nodes tree.now) path.now.names)
        (λ found. Finds (T.nodes tree.now) path.now.names found.0.0 found.1.now) }
{
    let (parent, name) = follow(tree, path.names.as_slice())?;
    holder(tree, parent, name)
}

/// The place to which a path leads, where nobody has it.
fn vacant_place<T: TreeLike>(tree: &T, alloc: Global, path: &Path) -> Result<Place, UserReply>
    requires { WellFormed (T.nodes tree.now) }
    ensures ok { IfOk result (λ place. FindsPlace (T.nodes tree.now) path.now.names place) }
    ensures refused { IfErr result (λ reply. MakeRefused (T.nodes tree.now) path.now.names reply) }
{
    let Some((parent, name)) = follow(tree, path.names.as_slice()) else {
        return Err(UserReply::NoParent);
    };
    if holder(tree, parent, name).is_some() {
        return Err(UserReply::Taken);
    }
    match name.copy(alloc) {
        Ok(name) => Ok(Place { parent, name }),
        Err(_) => Err(UserReply::Memory),
    }
}

/// The item of what is new at a place: of a folder, or of a file without the bit.
fn item(
    alloc: Global,
    key: u64,
    place: &Place,
    file: Option<&ShelfFile>,
) -> Result<Item, AllocError>
    ensures folder { IfOk result (λ item. option_copied file.entry ≡ None → item ≡ item_of key (folder_at place.now) None) }
    ensures file { (bytes : List ℕ) → IfOk result (λ item. option_copied file.entry ≡ Some bytes → item ≡ item_of key (file_at place.now false) (Some bytes)) }
{
    let content = match file {
        Some(file) => Some(file.content().copy(alloc)?),
        None => None,
    };
    Ok(Item {
        key: Key(key),
        parent: Key(place.parent.0),
        content,
        name: Items::from_slice(alloc, place.name.bytes())?,
        bit: false,
    })
}

/// The place as a notice has it.
fn key_place(alloc: Global, place: &Place) -> Result<KeyPlace, AllocError>
    ensures { IfOk result (λ told. told ≡ key_place place.now) }
{
    let name = place.name.copy(alloc)?;
    Ok(KeyPlace {
        parent: Key(place.parent.0),
        name,
    })
}
