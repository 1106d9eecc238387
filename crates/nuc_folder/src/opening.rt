ghost use Rattle.std.specs.Prelude.{◌≡◌, ◌<◌, ◌≤◌, [], List, None, length, IfErr, IfOk, MatchBool, OnOk};
ghost use Rattle.std.specs.FinMap as map;
ghost use Rattle.nuc_base.specs.Trees.{Held, IsFolder, IsVacant};
ghost use Rattle.nuc_shelf.specs.Shelf.{IsShelf, empty_shelf};
ghost use Rattle.nuc_folder.specs.State.{place_of};
ghost use Rattle.nuc_folder.specs.Shelves.{AreStuck, Faulty, Holds, IsFit, Opens, RowFaulty, with_row};
ghost use Rattle.nuc_folder.specs.declared.shelved.Shelved.{Shelved as Row};

use crate::making::tree_place;
use crate::shelved::MOST_SHELVED;
use crate::{Key, MemFolder, Shelved, ShelvedFault};
use nuc_base::{Kind, NodeId, TreeLike};
use nuc_shelf::Shelf;
use std::alloc::Global;

impl MemFolder {
    /// The folder of a kept image, settled, none of whose calls fails: it holds these files and folders and no others.
    ///
    /// A row is put once its parent is there, so the time is that of the rows times the greatest depth, and of hashing
    /// all bytes. Each file's bytes are copied. A fault is given only where a row is at fault.
    pub fn of(alloc: Global, rows: Vec<Shelved>, next_key: u64) -> Result<MemFolder, ShelvedFault>
        ensures held { IfOk result (λ f. Holds next_key rows.items f.now.held) }
        ensures next { IfOk result (λ f. f.now.next ≡ next_key) }
        ensures pending { IfOk result (λ f. f.now.pending ≡ []) }
        ensures settled { IfOk result (λ f. f.settled ≡ f.now) }
        ensures calls { IfOk result (λ f. f.calls ≡ record { made = 0; settled = 0; failing = []; faults = 0 }) }
        ensures fault { IfErr result (λ e. Faulty next_key rows.items e) }
    {
        if next_key == 0 {
            return Err(ShelvedFault::BadKey(Key(0)));
        }
        let mut shelf = Shelf::new(alloc);
        put_all(&mut shelf, alloc, next_key, rows)?;
        let mut folder = MemFolder::new(alloc);
        folder.shelf = shelf;
        folder.next_key = next_key;
        folder.settle();
        Ok(folder)
    }
}

/// Puts all rows on an empty shelf, in rounds, until none waits or none has its parent there.
fn put_all(
    shelf: &mut Shelf,
    alloc: Global,
    next_key: u64,
    rows: Vec<Shelved>,
) -> Result<(), ShelvedFault>
    requires { shelf.old.now ≡ empty_shelf }
    ensures ok { OnOk result (Holds next_key rows.items shelf.new.now) }
    ensures fault { IfErr result (λ e. Faulty next_key rows.items e) }
    ensures settled { shelf.new.settled ≡ shelf.old.settled }
    ensures shelf { IsShelf shelf.new.now }
{
    let mut waiting = rows;
    while !waiting.is_empty() {
        let before = waiting.len();
        waiting = put_round(shelf, alloc, next_key, waiting)?;
        if waiting.len() == before {
            return Err(ShelvedFault::NoParent(waiting[0].key));
        }
    }
    Ok(())
}

/// Puts each of the rows whose parent is there, and gives the others.
fn put_round(
    shelf: &mut Shelf,
    alloc: Global,
    next_key: u64,
    mut waiting: Vec<Shelved>,
) -> Result<Vec<Shelved>, ShelvedFault>
    requires { IsShelf shelf.old.now }
    ensures opens { (rows : List Row) → Opens next_key rows shelf.old.now waiting.items [] → IfOk result (λ rest. Opens next_key rows shelf.new.now rest.items []) }
    ensures fault { (rows : List Row) → Opens next_key rows shelf.old.now waiting.items [] → IfErr result (λ e. Faulty next_key rows e) }
    ensures shorter { IfOk result (λ rest. length rest.items ≤ length waiting.items) }
    ensures stuck { IfOk result (λ rest. length rest.items ≡ length waiting.items → AreStuck shelf.new.now.tree rest.items) }
    ensures settled { shelf.new.settled ≡ shelf.old.settled }
    ensures shelf { IsShelf shelf.new.now }
{
    let mut rest = Vec::new(alloc);
    while let Some(row) = waiting.pop() {
        if has_parent(shelf, row.place.parent) {
            put_row(shelf, alloc, next_key, &row)?;
        } else {
            rest.push(row).map_err(|_| ShelvedFault::Memory)?;
        }
    }
    Ok(rest)
}

/// Whether the key is that of a folder that is there, or of the folder itself.
fn has_parent(shelf: &Shelf, parent: Key) -> bool
    ensures { MatchBool result (IsFolder shelf.now.now.tree parent.0) (¬ (IsFolder shelf.now.now.tree parent.0)) }
{
    if parent.0 == 0 {
        return true;
    }
    match shelf.tree().get(NodeId(parent.0)) {
        Some(node) => node.kind == Kind::Folder,
        None => false,
    }
}

/// Puts a row whose parent is there.
fn put_row(
    shelf: &mut Shelf,
    alloc: Global,
    next_key: u64,
    row: &Shelved,
) -> Result<(), ShelvedFault>
    requires { IsFolder shelf.old.now.tree row.now.place.parent.0 }
    ensures ok { OnOk result ((map.get shelf.old.now.tree row.now.key.0 ≡ None) × IsFit next_key row.now × (shelf.new.now ≡ with_row shelf.old.now row.now)) }
    ensures fault { IfErr result (λ e. RowFaulty next_key shelf.old.now.tree row.now e) }
    ensures settled { shelf.new.settled ≡ shelf.old.settled }
    ensures shelf { IsShelf shelf.new.now }
{
    check_row(shelf, next_key, row)?;
    if is_taken(shelf, row) {
        return Err(ShelvedFault::Taken(row.key));
    }
    let Ok(place) = tree_place(alloc, &row.place) else {
        return Err(ShelvedFault::Memory);
    };
    let put = match &row.bytes {
        Some(bytes) => shelf.add_file(alloc, row.key.0, place, bytes.as_slice(), row.bit),
        None => shelf.add_folder(row.key.0, place),
    };
    put.map_err(|_| ShelvedFault::Memory)
}

/// Whether a row is fit, and nothing has its key yet.
fn check_row(shelf: &Shelf, next_key: u64, row: &Shelved) -> Result<(), ShelvedFault>
    ensures ok { OnOk result ((map.get shelf.now.now.tree row.now.key.0 ≡ None) × IsFit next_key row.now) }
    ensures fault { IfErr result (λ e. RowFaulty next_key shelf.now.now.tree row.now e) }
    ensures shelf { IsShelf shelf.now.now }
{
    let key = row.key;
    if shelf.tree().get(NodeId(key.0)).is_some() {
        return Err(ShelvedFault::BadKey(key));
    }
    if key.0 == 0 {
        return Err(ShelvedFault::BadKey(key));
    }
    if key.0 >= next_key {
        return Err(ShelvedFault::BadKey(key));
    }
    match &row.bytes {
        Some(bytes) => {
            if bytes.len() as u64 > MOST_SHELVED {
                return Err(ShelvedFault::TooLong(key));
            }
        }
        None => {
            if row.bit {
                return Err(ShelvedFault::HasBit(key));
            }
        }
    }
    Ok(())
}

/// Whether something has the place of a row whose key nothing has.
fn is_taken(shelf: &Shelf, row: &Shelved) -> bool
    requires { map.get shelf.now.now.tree row.now.key.0 ≡ None }
    ensures value { MatchBool result (Held shelf.now.now.tree (place_of row.now.place) row.now.key.0) (IsVacant shelf.now.now.tree (place_of row.now.place)) }
    ensures shelf { IsShelf shelf.now.now }
{
    let parent = NodeId(row.place.parent.0);
    shelf.tree().at(parent, &row.place.name).is_some()
}
