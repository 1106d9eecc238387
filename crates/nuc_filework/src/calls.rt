ghost use Rattle.std.specs.Prelude.{◌≡◌, ◌≤◌, [], ◌∷◌, ◌++◌, length, Some, IfOk, IfErr, OnOk, OnErr, IsSome};
ghost use Rattle.nuc_filework.specs.Calls as spec;
ghost use Rattle.nuc_filework.specs.Lacks.{LacksCalls};
ghost use Rattle.std.specs.FinMap.{get};
ghost use Rattle.std.specs.Option.{option_copied};

use crate::Call;
use crate::steps::{Lack, bit_step, making, move_step, moving, removing, replace_step};
use nuc_base::{Change, Node, NodeId};
use nuc_class::{Op, Verb};
use nuc_hash::{Content, Digest};
use nuc_observe::Keys;
use std::alloc::{AllocError, Global};

/// The calls of the operation, at most three; `given` says whether there are bytes for those that write some.
pub(crate) fn calls_of(
    alloc: Global,
    op: &Op,
    keys: &Keys,
    seen: &Content,
    wanted: &Content,
    given: bool,
) -> Result<Vec<Call>, Lack>
    ensures ok { IfOk result (λ calls. spec.calls_of keys.now.now op.now seen.now wanted.now given ≡ Some calls.items) }
    ensures few { IfOk result (λ calls. length calls.items ≤ 3) }
    ensures err { IfErr result (LacksCalls (spec.calls_of keys.now.now op.now seen.now wanted.now given)) }
{
    let old = op.old_local.as_ref();
    match op.verb {
        Verb::Adopt => Ok(Vec::new(alloc)),
        Verb::Split => splitting(alloc, keys, op.id, old, &op.local),
        Verb::Down
        | Verb::Up
        | Verb::CutDown
        | Verb::CutUp
        | Verb::Forget
        | Verb::Unmove
        | Verb::Revive
        | Verb::Evict => changing(
            alloc,
            keys,
            op.id,
            old,
            &op.local,
            seen.hash(),
            wanted.hash(),
            given,
        ),
    }
}

/// What stands at the identity goes to the place of the copy.
fn splitting(
    alloc: Global,
    keys: &Keys,
    id: NodeId,
    old: Option<&Node>,
    local: &Change,
) -> Result<Vec<Call>, Lack>
    ensures ok { IfOk result (λ calls. spec.splitting keys.now.now id.0 (option_copied old.entry) local.now ≡ Some calls.items) }
    ensures few { IfOk result (λ calls. length calls.items ≤ 3) }
    ensures err { IfErr result (LacksCalls (spec.splitting keys.now.now id.0 (option_copied old.entry) local.now)) }
{
    match (old, local) {
        (Some(old), Change::Put(copy)) => {
            let call = moving(alloc, keys, keys.key_of(id), &old.place, &copy.place)?;
            only(alloc, call)
        }
        (None, _) | (_, Change::Keep) | (_, Change::Cut) => Ok(Vec::new(alloc)),
    }
}

/// What Local had at the identity becomes what it is to have.
fn changing(
    alloc: Global,
    keys: &Keys,
    id: NodeId,
    old: Option<&Node>,
    local: &Change,
    seen: &Digest,
    wanted: &Digest,
    given: bool,
) -> Result<Vec<Call>, Lack>
    ensures ok { IfOk result (λ calls. spec.changing keys.now.now id.0 (option_copied old.entry) local.now seen.now wanted.now given ≡ Some calls.items) }
    ensures few { IfOk result (λ calls. length calls.items ≤ 3) }
    ensures err { IfErr result (LacksCalls (spec.changing keys.now.now id.0 (option_copied old.entry) local.now seen.now wanted.now given)) }
{
    match (old, local) {
        (_, Change::Keep) | (None, Change::Cut) => Ok(Vec::new(alloc)),
        (Some(old), Change::Cut) => {
            let call = removing(alloc, keys, keys.key_of(id), old, seen)?;
            only(alloc, call)
        }
        (None, Change::Put(new)) => {
            let call = making(alloc, keys, new, given)?;
            only(alloc, call)
        }
        (Some(old), Change::Put(new)) => altering(alloc, keys, id, old, new, seen, wanted, given),
    }
}

/// What is there gets its new hash, then its new bit, then its new place.
fn altering(
    alloc: Global,
    keys: &Keys,
    id: NodeId,
    old: &Node,
    new: &Node,
    seen: &Digest,
    wanted: &Digest,
    given: bool,
) -> Result<Vec<Call>, Lack>
    ensures ok { IfOk result (λ calls. spec.alter_calls keys.now.now (get keys.now.now id.0) old.now new.now seen.now wanted.now given ≡ Some calls.items) }
    ensures few { IfOk result (λ calls. length calls.items ≤ 3) }
    ensures err { IfErr result (LacksCalls (spec.alter_calls keys.now.now (get keys.now.now id.0) old.now new.now seen.now wanted.now given)) }
{
    let key = keys.key_of(id);
    let replace = replace_step(key, seen, wanted, given)?;
    let set_bit = bit_step(key, old.bit, new.bit)?;
    let move_to = move_step(alloc, keys, key, &old.place, &new.place)?;
    in_order(alloc, replace, set_bit, move_to).map_err(|_| Lack::Memory)
}

fn in_order(
    alloc: Global,
    first: Option<Call>,
    second: Option<Call>,
    third: Option<Call>,
) -> Result<Vec<Call>, AllocError>
    ensures ok { IfOk result (λ calls. spec.in_order (Some first) (Some second) (Some third) ≡ Some calls.items) }
    ensures few { IfOk result (λ calls. length calls.items ≤ 3) }
    ensures err { OnErr result (LacksCalls (spec.in_order (Some first) (Some second) (Some third)) Lack.Memory) }
{
    let mut calls = Vec::new(alloc);
    add(&mut calls, first)?;
    add(&mut calls, second)?;
    add(&mut calls, third)?;
    Ok(calls)
}

fn add(calls: &mut Vec<Call>, call: Option<Call>) -> Result<(), AllocError>
    ensures ok { OnOk result (calls.new.items ≡ calls.old.items ++ spec.listed call) }
    ensures err { OnErr result (IsSome call) }
{
    match call {
        Some(call) => {
            calls.push(call)?;
            Ok(())
        }
        None => Ok(()),
    }
}

fn only(alloc: Global, call: Call) -> Result<Vec<Call>, Lack>
    ensures ok { IfOk result (λ calls. calls.items ≡ call ∷ []) }
    ensures err { IfErr result (λ lack. lack ≡ Lack.Memory) }
{
    let mut calls = Vec::new(alloc);
    match calls.push(call) {
        Ok(()) => Ok(calls),
        Err(_) => Err(Lack::Memory),
    }
}
