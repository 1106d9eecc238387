ghost use Rattle.std.specs.Prelude.{◌≡◌, ◌≢◌, MatchBool, MatchOption};
ghost use Rattle.std.specs.Option.{option_copied};
ghost use Rattle.nuc_shelf.specs.Shelf.{IsShelf};
ghost use Rattle.nuc_folder.specs.Answers.{Alters, HasBit, HasHash, HasSeenHash, IsPlaced, MoveAnswers, RemoveAnswers, ReplaceAnswers, SetBitAnswers};
ghost use Rattle.nuc_folder.specs.State.{place_of};

use crate::making::{refusal, tree_place, unchanged};
use crate::{Key, KeyPlace, Outcome, Seen};
use nuc_base::{Kind, Node, NodeId, TreeLike};
use nuc_hash::Digest;
use nuc_shelf::{Shelf, ShelfFile};
use std::alloc::Global;

/// Replaces the bytes of a file that has the expected hash.
pub(crate) fn replace(
    shelf: &mut Shelf,
    alloc: Global,
    key: Key,
    expected: &Digest,
    bytes: &[u8],
) -> Outcome
    ensures answers { ReplaceAnswers key.0 expected.now bytes.now shelf.old.now result shelf.new.now }
    ensures alters { Alters result }
    ensures settled { shelf.new.settled ≡ shelf.old.settled }
    ensures shelf { IsShelf shelf.new.now }
{
    if !has_hash(shelf.file(key.0), expected) {
        return unchanged(shelf, Outcome::Changed);
    }
    let _ = shelf.tree();
    match shelf.refill(alloc, key.0, bytes) {
        Ok(()) => Outcome::Ok,
        Err(_) => Outcome::Memory,
    }
}

/// Sets the bit of a file that has the expected one.
pub(crate) fn set_bit(
    shelf: &mut Shelf,
    alloc: Global,
    key: Key,
    expected: bool,
    bit: bool,
) -> Outcome
    ensures answers { SetBitAnswers key.0 expected bit shelf.old.now result shelf.new.now }
    ensures alters { Alters result }
    ensures settled { shelf.new.settled ≡ shelf.old.settled }
    ensures shelf { IsShelf shelf.new.now }
{
    if !has_bit(shelf.tree().get(NodeId(key.0)), expected) {
        return Outcome::Changed;
    }
    match shelf.set_bit(alloc, key.0, bit) {
        Ok(()) => Outcome::Ok,
        Err(_) => Outcome::Memory,
    }
}

/// Moves what stands at the expected place.
pub(crate) fn move_to(
    shelf: &mut Shelf,
    alloc: Global,
    key: Key,
    expected: &KeyPlace,
    place: &KeyPlace,
) -> Outcome
    ensures answers { MoveAnswers key.0 (place_of expected.now) (place_of place.now) shelf.old.now result shelf.new.now }
    ensures alters { Alters result }
    ensures settled { shelf.new.settled ≡ shelf.old.settled }
    ensures shelf { IsShelf shelf.new.now }
{
    let id = NodeId(key.0);
    let Ok(place) = tree_place(alloc, place) else {
        return unchanged(shelf, Outcome::Memory);
    };
    let tree = shelf.tree();
    let Some(node) = placed(tree.get(id), expected) else {
        return Outcome::Changed;
    };
    if tree.under(place.parent, id) {
        return Outcome::Changed;
    }
    let node = node.moved_to(place);
    if let Some(refused) = refusal(tree, key, &node) {
        return refused;
    }
    match shelf.move_to(key.0, node.place) {
        Ok(()) => Outcome::Ok,
        Err(_) => Outcome::Memory,
    }
}

/// Removes a file, or a folder with nothing in it, that is as it was seen.
pub(crate) fn remove(shelf: &mut Shelf, key: Key, expected: &Seen) -> Outcome
    ensures answers { RemoveAnswers key.0 expected.now shelf.old.now result shelf.new.now }
    ensures alters { Alters result }
    ensures settled { shelf.new.settled ≡ shelf.old.settled }
    ensures shelf { IsShelf shelf.new.now }
{
    let id = NodeId(key.0);
    let tree = shelf.tree();
    if placed(tree.get(id), &expected.place).is_none() {
        return Outcome::Changed;
    }
    if !has_seen_hash(shelf.file(key.0), &expected.hash) {
        return Outcome::Changed;
    }
    if tree.has_child(id) {
        return Outcome::NotEmpty;
    }
    match shelf.cut(key.0) {
        Ok(()) => Outcome::Ok,
        Err(_) => Outcome::Memory,
    }
}

fn has_hash(file: Option<&ShelfFile>, expected: &Digest) -> bool
    ensures { MatchBool result (HasHash (option_copied file.entry) expected.now) (¬ (HasHash (option_copied file.entry) expected.now)) }
{
    match file {
        Some(file) => file.content().hash().0 == expected.0,
        None => false,
    }
}

fn has_bit(node: Option<&Node>, expected: bool) -> bool
    ensures { MatchBool result (HasBit (option_copied node.entry) expected) (¬ (HasBit (option_copied node.entry) expected)) }
{
    match node {
        Some(node) => node.kind == Kind::File && node.bit == expected,
        None => false,
    }
}

/// The node, where it stands at this place.
fn placed<'a>(node: Option<&'a Node>, expected: &KeyPlace) -> Option<&'a Node>
    ensures { MatchOption result (¬ (IsPlaced (option_copied node.entry) (place_of expected.now))) (λ n. (option_copied node.entry ≡ Some n.now) × (n.now.place ≡ place_of expected.now)) }
{
    match node {
        Some(at) if stands_at(at, expected) => node,
        _ => None,
    }
}

fn stands_at(node: &Node, expected: &KeyPlace) -> bool
    ensures { MatchBool result (node.now.place ≡ place_of expected.now) (node.now.place ≢ place_of expected.now) }
{
    node.place.parent.0 == expected.parent.0 && node.place.name.bytes() == expected.name.bytes()
}

fn has_seen_hash(file: Option<&ShelfFile>, expected: &Option<Digest>) -> bool
    ensures { MatchBool result (HasSeenHash (option_copied file.entry) expected.now) (¬ (HasSeenHash (option_copied file.entry) expected.now)) }
{
    match (file, expected) {
        (Some(file), Some(hash)) => file.content().hash().0 == hash.0,
        (None, None) => true,
        (Some(_), None) | (None, Some(_)) => false,
    }
}
