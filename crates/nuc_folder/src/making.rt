ghost use Rattle.std.specs.Prelude.{◌≡◌, ◌≢◌, ◌<◌, None, IfOk, MatchOption};
ghost use Rattle.std.specs.FinMap as map;
ghost use Rattle.nuc_base.specs.Kinds.{FitsKind};
ghost use Rattle.nuc_base.specs.Legal.{LegalPut, SameKind};
ghost use Rattle.nuc_base.specs.Trees.{IsFolder, IsUnder, WellFormed};
ghost use Rattle.nuc_shelf.specs.Shelf.{IsShelf, file_at, folder_at};
ghost use Rattle.nuc_folder.specs.Answers.{MadeAs, MakeDirAnswers, Refuses, WriteNewAnswers};
ghost use Rattle.nuc_folder.specs.State.{place_of};

use crate::{Key, KeyPlace, Outcome};
use nuc_base::{Kind, Node, NodeId, Place, PutFault, TreeLike, Ver};
use nuc_shelf::Shelf;
use std::alloc::{AllocError, Global};

/// Makes a folder under a new key.
pub(crate) fn make_dir(shelf: &mut Shelf, alloc: Global, key: Key, place: &KeyPlace) -> Outcome
    requires key { 0 < key.0 }
    requires absent { map.get shelf.old.now.tree key.0 ≡ None }
    ensures answers { MakeDirAnswers (place_of place.now) shelf.old.now result shelf.new.now }
    ensures made { MadeAs result key.0 }
    ensures settled { shelf.new.settled ≡ shelf.old.settled }
    ensures shelf { IsShelf shelf.new.now }
{
    let Ok(place) = tree_place(alloc, place) else {
        return unchanged(shelf, Outcome::Memory);
    };
    let node = Node {
        place,
        kind: Kind::Folder,
        ver: Ver(0),
        bit: false,
    };
    if let Some(refused) = refusal(shelf.tree(), key, &node) {
        return refused;
    }
    match shelf.add_folder(key.0, node.place) {
        Ok(()) => Outcome::Made(key),
        Err(_) => Outcome::Memory,
    }
}

/// Makes a file under a new key.
pub(crate) fn write_new(
    shelf: &mut Shelf,
    alloc: Global,
    key: Key,
    place: &KeyPlace,
    bytes: &[u8],
    bit: bool,
) -> Outcome
    requires key { 0 < key.0 }
    requires absent { map.get shelf.old.now.tree key.0 ≡ None }
    ensures answers { WriteNewAnswers (place_of place.now) bytes.now bit shelf.old.now result shelf.new.now }
    ensures made { MadeAs result key.0 }
    ensures settled { shelf.new.settled ≡ shelf.old.settled }
    ensures shelf { IsShelf shelf.new.now }
{
    let Ok(place) = tree_place(alloc, place) else {
        return unchanged(shelf, Outcome::Memory);
    };
    let node = Node {
        place,
        kind: Kind::File,
        ver: Ver(1),
        bit,
    };
    if let Some(refused) = refusal(shelf.tree(), key, &node) {
        return refused;
    }
    match shelf.add_file(alloc, key.0, node.place, bytes, bit) {
        Ok(()) => Outcome::Made(key),
        Err(_) => Outcome::Memory,
    }
}

/// The answer, of a shelf that stays as it is.
pub(crate) fn unchanged(shelf: &Shelf, answer: Outcome) -> Outcome
    ensures answer { result ≡ answer }
    ensures shelf { IsShelf shelf.now.now }
{
    let _ = shelf.tree();
    answer
}

/// The place as a tree has it.
pub(crate) fn tree_place(alloc: Global, place: &KeyPlace) -> Result<Place, AllocError>
    ensures { IfOk result (λ p. p ≡ place_of place.now) }
{
    let name = place.name.copy(alloc)?;
    Ok(Place {
        parent: NodeId(place.parent.0),
        name,
    })
}

/// Why a node can't stand at its place, where that can't be below itself.
pub(crate) fn refusal<T: TreeLike>(tree: &T, key: Key, node: &Node) -> Option<Outcome>
    requires form { WellFormed (T.nodes tree.now) }
    requires key { 0 < key.0 }
    requires fits { FitsKind node.now }
    requires kind { SameKind (T.nodes tree.now) key.0 node.now.kind }
    requires no_cycle { IsFolder (T.nodes tree.now) node.now.place.parent.0 → ¬ (IsUnder (T.nodes tree.now) node.now.place.parent.0 key.0) }
    ensures { MatchOption result (LegalPut (T.nodes tree.now) key.0 node.now) (λ refused. Refuses (T.nodes tree.now) key.0 node.now.place refused) }
{
    match tree.check_put(NodeId(key.0), node) {
        Ok(()) => None,
        Err(PutFault::NoParent) => Some(Outcome::Changed),
        Err(PutFault::Taken(_)) => Some(Outcome::Taken),
        Err(PutFault::KindChanged | PutFault::Cycle | PutFault::Memory) => unreachable!(),
    }
}
