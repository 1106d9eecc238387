ghost use Rattle.std.specs.Prelude.{◌≡◌, Some, IfOk, IfErr};
ghost use Rattle.std.specs.Option.{option_map};
ghost use Rattle.nuc_filework.specs.Calls as calls;
ghost use Rattle.nuc_filework.specs.Lacks.{IsLacking, LacksStep};

use crate::Call;
use nuc_base::{Kind, Node, NodeId, Place};
use nuc_class::place_eq;
use nuc_folder::{Key, KeyPlace, Seen};
use nuc_hash::Digest;
use nuc_observe::Keys;
use std::alloc::Global;

/// Why the calls of an operation can't be made.
#[derive(Clone, Copy, Debug, PartialEq, Eq)]
pub(crate) enum Lack {
    /// No key is known of something that a call needs, or a call needs bytes and there are none.
    Missing,
    Memory,
}

/// What the folder knows the identity by.
fn key_of(keys: &Keys, id: NodeId) -> Option<Key>
    ensures { option_map (λ k. k.0) result ≡ calls.key_of keys.now.now id.0 }
{
    if id.0 == 0 {
        return Some(Key(0));
    }
    keys.key_of(id)
}

/// The place as the folder knows it.
fn key_place(alloc: Global, keys: &Keys, place: &Place) -> Result<KeyPlace, Lack>
    ensures ok { IfOk result (λ p. calls.key_place keys.now.now place.now ≡ Some p) }
    ensures err { IfErr result (IsLacking (calls.key_place keys.now.now place.now)) }
{
    match key_of(keys, place.parent) {
        Some(parent) => match place.name.copy(alloc) {
            Ok(name) => Ok(KeyPlace { parent, name }),
            Err(_) => Err(Lack::Memory),
        },
        None => Err(Lack::Missing),
    }
}

/// The call that replaces the bytes of a file, where its hash is to be another.
pub(crate) fn replace_step(
    key: Option<Key>,
    old: &Digest,
    new: &Digest,
    given: bool,
) -> Result<Option<Call>, Lack>
    ensures ok { IfOk result (λ step. calls.replace_step (option_map (λ k. k.0) key) old.now new.now given ≡ Some step) }
    ensures err { IfErr result (LacksStep (calls.replace_step (option_map (λ k. k.0) key) old.now new.now given)) }
{
    if old.0 == new.0 {
        return Ok(None);
    }
    match key {
        Some(key) if given => Ok(Some(Call::Replace(key, *old))),
        _ => Err(Lack::Missing),
    }
}

/// The call that sets the bit of a file, where it is to be another.
pub(crate) fn bit_step(key: Option<Key>, old: bool, new: bool) -> Result<Option<Call>, Lack>
    ensures ok { IfOk result (λ step. calls.bit_step (option_map (λ k. k.0) key) old new ≡ Some step) }
    ensures err { IfErr result (LacksStep (calls.bit_step (option_map (λ k. k.0) key) old new)) }
{
    if old == new {
        return Ok(None);
    }
    match key {
        Some(key) => Ok(Some(Call::SetBit(key, old, new))),
        None => Err(Lack::Missing),
    }
}

/// The call that moves something, where its place is to be another.
pub(crate) fn move_step(
    alloc: Global,
    keys: &Keys,
    key: Option<Key>,
    old: &Place,
    new: &Place,
) -> Result<Option<Call>, Lack>
    ensures ok { IfOk result (λ step. calls.move_step keys.now.now (option_map (λ k. k.0) key) old.now new.now ≡ Some step) }
    ensures err { IfErr result (LacksStep (calls.move_step keys.now.now (option_map (λ k. k.0) key) old.now new.now)) }
{
    if place_eq(old, new) {
        return Ok(None);
    }
    match moving(alloc, keys, key, old, new) {
        Ok(call) => Ok(Some(call)),
        Err(lack) => Err(lack),
    }
}

pub(crate) fn moving(
    alloc: Global,
    keys: &Keys,
    key: Option<Key>,
    old: &Place,
    new: &Place,
) -> Result<Call, Lack>
    ensures ok { IfOk result (λ call. calls.moving (option_map (λ k. k.0) key) (calls.key_place keys.now.now old.now) (calls.key_place keys.now.now new.now) ≡ Some call) }
    ensures err { IfErr result (IsLacking (calls.moving (option_map (λ k. k.0) key) (calls.key_place keys.now.now old.now) (calls.key_place keys.now.now new.now))) }
{
    let Some(key) = key else {
        return Err(Lack::Missing);
    };
    let from = key_place(alloc, keys, old)?;
    let to = key_place(alloc, keys, new)?;
    Ok(Call::MoveTo(key, from, to))
}

/// The call that makes a folder, or a file with the bytes that are given.
pub(crate) fn making(alloc: Global, keys: &Keys, new: &Node, given: bool) -> Result<Call, Lack>
    ensures ok { IfOk result (λ call. calls.making new.now.kind new.now.bit given (calls.key_place keys.now.now new.now.place) ≡ Some call) }
    ensures err { IfErr result (IsLacking (calls.making new.now.kind new.now.bit given (calls.key_place keys.now.now new.now.place))) }
{
    match new.kind {
        Kind::Folder => {
            let place = key_place(alloc, keys, &new.place)?;
            Ok(Call::MakeDir(place))
        }
        Kind::File if given => {
            let place = key_place(alloc, keys, &new.place)?;
            Ok(Call::WriteNew(place, new.bit))
        }
        Kind::File => Err(Lack::Missing),
    }
}

/// The call that removes what was seen so.
pub(crate) fn removing(
    alloc: Global,
    keys: &Keys,
    key: Option<Key>,
    old: &Node,
    seen: &Digest,
) -> Result<Call, Lack>
    ensures ok { IfOk result (λ call. calls.removing (option_map (λ k. k.0) key) (calls.key_place keys.now.now old.now.place) (calls.seen_hash old.now.kind seen.now) ≡ Some call) }
    ensures err { IfErr result (IsLacking (calls.removing (option_map (λ k. k.0) key) (calls.key_place keys.now.now old.now.place) (calls.seen_hash old.now.kind seen.now))) }
{
    let Some(key) = key else {
        return Err(Lack::Missing);
    };
    let place = key_place(alloc, keys, &old.place)?;
    let hash = seen_hash(old.kind, seen);
    Ok(Call::Remove(key, Seen { place, hash }))
}

fn seen_hash(kind: Kind, hash: &Digest) -> Option<Digest>
    ensures { result ≡ calls.seen_hash kind hash.now }
{
    match kind {
        Kind::Folder => None,
        Kind::File => Some(*hash),
    }
}
