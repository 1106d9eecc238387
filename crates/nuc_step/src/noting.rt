ghost use Rattle.std.specs.Prelude.{◌≡◌, ◌≢◌, ◌<◌, ◌≤◌, ◌+◌, None, Some, IfOk, MatchBool, OnErr, OnOk};
ghost use Rattle.std.specs.FinMap.{get};
ghost use Rattle.nuc_base.specs.Changes.{changed};
ghost use Rattle.nuc_class.specs.Due.{FitsOp};
ghost use Rattle.nuc_conflict.specs.After.{ComesFor};
ghost use Rattle.nuc_replica.specs.Local.{KeepsLocal, moved_key};
ghost use Rattle.nuc_step.specs.Launch.{IsFresh, LaidOne};
ghost use Rattle.nuc_step.specs.Planning.{MayComeFor, numbered_one};
ghost use Rattle.nuc_step.specs.Sound.{IsLaid};
ghost use Rattle.nuc_undo.specs.Steps.{KeepsTree};

use crate::launch::{base_of, lay_in_local, lay_in_synced};
use nuc_base::{Change, Node, TreeLike};
use nuc_class::{Op, value_eq};
use nuc_conflict::free_name;
use nuc_edits::Edits;
use nuc_replica::{Local, Remote};
use nuc_undo::UndoTree;
use std::alloc::{AllocError, Global};

/// Gives an operation this number, and its base.
pub(crate) fn number_one<T: TreeLike>(number: u64, remote: &Remote<T>, op: Op) -> Op
    ensures { result ≡ numbered_one number remote.now.now op }
{
    let mut op = op;
    op.number = number;
    op.base = base_of(remote, &op);
    op
}

/// Makes the room for an operation that takes place at once, and lays the nodes by that it puts.
pub(crate) fn lay_one<T: TreeLike>(
    alloc: Global,
    local: &mut Local<T>,
    synced: &mut UndoTree<T>,
    op: &Op,
    edits: &mut Edits,
) -> Result<(), AllocError>
    requires fits { FitsOp op.now }
    requires local_fresh { IsFresh local.old.laid local.old.laid_then op.now }
    requires synced_fresh { IsFresh synced.old.laid synced.old.laid_then op.now }
    ensures local_room { OnOk result (1 < local.new.spare) }
    ensures synced_room { OnOk result (0 < synced.new.spare) }
    ensures adoption { OnOk result (0 < edits.new.spare) }
    ensures local_laid { OnOk result (IsLaid local.new.laid op.now.number op.now.local) }
    ensures synced_laid { OnOk result (IsLaid synced.new.laid op.now.number op.now.synced) }
    ensures local_over { LaidOne op.now.number local.old.laid local.old.laid_then local.new.laid local.new.laid_then }
    ensures synced_over { LaidOne op.now.number synced.old.laid synced.old.laid_then synced.new.laid synced.new.laid_then }
    ensures local_keeps { KeepsLocal local.old local.new }
    ensures synced_keeps { KeepsTree synced.old synced.new }
    ensures edits_now { edits.new.now ≡ edits.old.now }
    ensures edits_settled { edits.new.settled ≡ edits.old.settled }
{
    edits.reserve(1)?;
    local.reserve(2)?;
    synced.reserve(1)?;
    lay_in_local(alloc, local, op.number, &op.local)?;
    lay_in_synced(alloc, synced, op.number, &op.synced)
}

/// Whether the operation's change of its identity makes another tree.
pub(crate) fn is_changed_by<T: TreeLike>(tree: &T, op: &Op) -> bool
    ensures { MatchBool result (changed (T.nodes tree.now) op.now.id.0 op.now.local ≢ T.nodes tree.now) (changed (T.nodes tree.now) op.now.id.0 op.now.local ≡ T.nodes tree.now) }
{
    match &op.local {
        Change::Keep => false,
        Change::Put(node) => !value_eq(tree.get(op.id), Some(node)),
        Change::Cut => !value_eq(tree.get(op.id), None),
    }
}

/// How often a tree has changed, with one change more where there is one.
pub(crate) fn counted(changes: u64, is_changed: bool) -> Result<u64, AllocError>
    ensures counts { IfOk result (λ n. MatchBool is_changed (n ≡ changes + 1) (n ≡ changes)) }
    ensures fits { IfOk result (λ n. n < 18446744073709551616) }
{
    if is_changed {
        changes.checked_add(1).ok_or(AllocError)
    } else {
        Ok(changes)
    }
}

/// Copies of these operations.
pub(crate) fn copies(alloc: Global, ops: &[Op]) -> Result<Vec<Op>, AllocError>
    ensures { IfOk result (λ copies. copies.items ≡ ops.now) }
{
    let mut copies = Vec::with_capacity(alloc, ops.len())?;
    for op in ops {
        copies.push(op.copy(alloc)?)?;
    }
    Ok(copies)
}

/// In Local the operation's identity comes in place of its other one, whose node is shown.
pub(crate) fn come_for<T: TreeLike>(
    alloc: Global,
    remote: &T,
    local: &mut Local<T>,
    synced: &T,
    op: &Op,
) -> Result<Node, AllocError>
    requires some { 0 < op.now.id.0 }
    requires absent { get local.old.now.tree op.now.id.0 ≡ None }
    requires comes { MayComeFor local.old.now.tree op.now.other.0 op.now.local }
    ensures old { IfOk result (λ old. get local.old.now.tree op.now.other.0 ≡ Some old) }
    ensures tree { OnOk result (ComesFor local.old.now.tree op.now.other.0 op.now.id.0 op.now.local local.new.now.tree) }
    ensures keys { OnOk result (local.new.now.keys ≡ moved_key local.old.now.keys op.now.other.0 op.now.id.0 (get local.old.now.keys op.now.other.0)) }
    ensures laid { local.new.laid ≡ local.old.laid }
    ensures laid_then { local.new.laid_then ≡ local.old.laid_then }
    ensures settled { local.new.settled ≡ local.old.settled }
    ensures spare_then { local.old.spare_then ≤ local.new.spare_then }
    ensures err { OnErr result (KeepsLocal local.old local.new) }
{
    let Change::Put(node) = &op.local else {
        unreachable!()
    };
    let tree = local.tree();
    let Some(old) = tree.get(op.other) else {
        unreachable!()
    };
    let old = old.copy(alloc)?;
    let aside = free_name(
        alloc,
        remote,
        tree,
        synced,
        node.place.parent,
        &node.place.name,
    )?;
    local.rename(alloc, op.other, op.id, node.copy(alloc)?, aside)?;
    Ok(old)
}
