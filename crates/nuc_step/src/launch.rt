ghost use Rattle.std.specs.Prelude.{◌≡◌, ◌<◌, ◌+◌, All, OnOk, length};
ghost use Rattle.std.specs.FinMap.{get};
ghost use Rattle.nuc_base.specs.Changes.{FitsChange};
ghost use Rattle.nuc_class.specs.Due.{FitsOp};
ghost use Rattle.nuc_replica.specs.Local.{KeepsLocal};
ghost use Rattle.nuc_step.specs.Launch.{AreApart, IsFresh, LaidOne, LaidOver};
ghost use Rattle.nuc_step.specs.Sound.{IsLaid};
ghost use Rattle.nuc_step.specs.Steps.{base_of, numbered};
ghost use Rattle.nuc_undo.specs.Steps.{KeepsTree};

use nuc_base::{Change, TreeLike};
use nuc_class::{Effect, Op};
use nuc_replica::{Local, Remote};
use nuc_undo::UndoTree;
use std::alloc::{AllocError, Global};

/// Gives operations their numbers, from the first on, and their bases.
pub(crate) fn number_from<T: TreeLike>(first: u64, remote: &Remote<T>, ops: &mut Vec<Op>)
    requires { first + length ops.old.items < 18446744073709551616 }
    ensures { ops.new.items ≡ numbered first remote.now.now ops.old.items }
{
    let mut next = first;
    for op in ops.iter_mut() {
        op.number = next;
        op.base = base_of(remote, op);
        next += 1;
    }
}

/// The revision that a commit takes for the current one of its identity; 0 for what isn't one.
pub(crate) fn base_of<T: TreeLike>(remote: &Remote<T>, op: &Op) -> u64
    ensures { result ≡ base_of op.now.effect remote.now.now op.now.id.0 }
{
    match op.effect {
        Effect::Commit => remote.revision(op.id),
        Effect::Disk | Effect::Nothing => 0,
    }
}

/// Lays a copy of each node by that an operation puts in Local, under the operation's number.
pub(crate) fn lay_local<T: TreeLike>(
    alloc: Global,
    local: &mut Local<T>,
    ops: &[Op],
) -> Result<(), AllocError>
    requires fits { All FitsOp ops.now }
    requires apart { AreApart ops.now }
    requires fresh { All (IsFresh local.old.laid local.old.laid_then) ops.now }
    ensures laid { OnOk result (All (λ op. IsLaid local.new.laid op.number op.local) ops.now) }
    ensures over { LaidOver ops.now local.old.laid local.old.laid_then local.new.laid local.new.laid_then }
    ensures keeps { KeepsLocal local.old local.new }
{
    for op in ops {
        lay_in_local(alloc, local, op.number, &op.local)?;
    }
    Ok(())
}

/// Lays a copy of the node by that a change of Local puts, where it puts one.
pub(crate) fn lay_in_local<T: TreeLike>(
    alloc: Global,
    local: &mut Local<T>,
    number: u64,
    change: &Change,
) -> Result<(), AllocError>
    requires fits { FitsChange change.now }
    requires fresh { get local.old.laid number ≡ get local.old.laid_then number }
    ensures laid { OnOk result (IsLaid local.new.laid number change.now) }
    ensures one { LaidOne number local.old.laid local.old.laid_then local.new.laid local.new.laid_then }
    ensures keeps { KeepsLocal local.old local.new }
{
    match change {
        Change::Put(node) => {
            local.lay_by(number, node.copy(alloc)?)?;
            Ok(())
        }
        Change::Keep | Change::Cut => Ok(()),
    }
}

/// The same in Synced.
pub(crate) fn lay_synced<T: TreeLike>(
    alloc: Global,
    synced: &mut UndoTree<T>,
    ops: &[Op],
) -> Result<(), AllocError>
    requires fits { All FitsOp ops.now }
    requires apart { AreApart ops.now }
    requires fresh { All (IsFresh synced.old.laid synced.old.laid_then) ops.now }
    ensures laid { OnOk result (All (λ op. IsLaid synced.new.laid op.number op.synced) ops.now) }
    ensures over { LaidOver ops.now synced.old.laid synced.old.laid_then synced.new.laid synced.new.laid_then }
    ensures keeps { KeepsTree synced.old synced.new }
{
    for op in ops {
        lay_in_synced(alloc, synced, op.number, &op.synced)?;
    }
    Ok(())
}

/// Lays a copy of the node by that a change of Synced puts, where it puts one.
pub(crate) fn lay_in_synced<T: TreeLike>(
    alloc: Global,
    synced: &mut UndoTree<T>,
    number: u64,
    change: &Change,
) -> Result<(), AllocError>
    requires fits { FitsChange change.now }
    requires fresh { get synced.old.laid number ≡ get synced.old.laid_then number }
    ensures laid { OnOk result (IsLaid synced.new.laid number change.now) }
    ensures one { LaidOne number synced.old.laid synced.old.laid_then synced.new.laid synced.new.laid_then }
    ensures keeps { KeepsTree synced.old synced.new }
{
    match change {
        Change::Put(node) => {
            synced.lay_by(number, node.copy(alloc)?)?;
            Ok(())
        }
        Change::Keep | Change::Cut => Ok(()),
    }
}
