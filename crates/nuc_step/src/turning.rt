ghost use Rattle.std.specs.Prelude.{◌≡◌, ◌≢◌, ◌<◌, ◌≤◌, ◌+◌, ◌*◌, ◌++◌, IfOk, IfSome, MatchBool, OnErr, OnOk, option_copied, option_to_list};
ghost use Rattle.nuc_edits.specs.Edits.{IsNext};
ghost use Rattle.nuc_replica.specs.Local.{ChangedLocal, KeepsLocal};
ghost use Rattle.nuc_step.specs.Watching.{CanTurn, next_id_after, next_ver_after, node_after, turned};

use crate::noting::counted;
use crate::watched::Turn;
use nuc_base::{Counters, Node, NodeId, TreeLike};
use nuc_class::value_eq;
use nuc_edits::{Edit, Edits};
use nuc_replica::Local;
use std::alloc::AllocError;

/// Whether this makes another tree.
pub(crate) fn is_turned_by<T: TreeLike>(local: &Local<T>, id: NodeId, turn: &Turn) -> bool
    ensures { MatchBool result ((turned local.now.now id.0 turn.now).tree ≢ local.now.now.tree) ((turned local.now.now id.0 turn.now).tree ≡ local.now.now.tree) }
{
    !value_eq(local.tree().get(id), node_after(turn))
}

fn node_after(turn: &Turn) -> Option<&Node>
    ensures { option_copied result ≡ node_after turn.now }
{
    match turn {
        Turn::Add(_, node) => Some(node),
        Turn::Put(node) => Some(node),
        Turn::Cut => None,
    }
}

/// One identity of Local changes so. It takes no memory.
pub(crate) fn turn_local<T: TreeLike>(local: &mut Local<T>, id: NodeId, turn: Turn)
    requires can { CanTurn local.old.now id.0 turn }
    requires room { 0 < local.old.spare }
    ensures now { local.new.now ≡ turned local.old.now id.0 turn }
    ensures laid { local.new.laid ≡ local.old.laid }
    ensures changed { ChangedLocal local.old 1 local.new }
{
    match turn {
        Turn::Add(key, node) => {
            let Ok(()) = local.add(id, node, key) else {
                unreachable!()
            };
        }
        Turn::Put(node) => {
            let Ok(()) = local.put(id, node) else {
                unreachable!()
            };
        }
        Turn::Cut => local.cut(id),
    }
}

/// Enters an edit that has the next version, if there is one.
pub(crate) fn enter_any(
    edits: &mut Edits,
    ids: &mut Counters,
    edit: Option<Edit>,
) -> Result<(), AllocError>
    requires next { IsNext ids.old.next_ver edits.old.now.edits }
    requires version { IfSome edit (λ e. e.ver.0 ≡ ids.old.next_ver) }
    ensures edits { OnOk result (edits.new.now ≡ record edits.old.now { edits = edits.old.now.edits ++ option_to_list edit }) }
    ensures version { OnOk result (ids.new ≡ record ids.old { next_ver = next_ver_after edit ids.old.next_ver }) }
    ensures err { OnErr result (edits.new.now ≡ edits.old.now) }
    ensures err_ids { OnErr result (ids.new ≡ ids.old) }
    ensures settled { edits.new.settled ≡ edits.old.settled }
    ensures spare { edits.new.spare ≡ edits.old.spare }
{
    match edit {
        Some(edit) => {
            edits.enter(ids, edit.id, edit.base, edit.what)?;
            Ok(())
        }
        None => Ok(()),
    }
}

/// The next identity after this one has turned so.
pub(crate) fn next_id_after(turn: &Turn, next_id: u64) -> Result<u64, AllocError>
    ensures { IfOk result (λ next. next ≡ next_id_after turn.now next_id) }
{
    match turn {
        Turn::Add(_, _) => next_id.checked_add(1).ok_or(AllocError),
        Turn::Put(_) | Turn::Cut => Ok(next_id),
    }
}

/// How often Local has changed, with one change more where there is one. So many others can be counted after it.
pub(crate) fn counted_beside(changes: u64, is_changed: bool, flying: u64) -> Result<u64, AllocError>
    ensures counts { IfOk result (λ n. MatchBool is_changed (n ≡ changes + 1) (n ≡ changes)) }
    ensures fits { IfOk result (λ n. n + flying < 18446744073709551616) }
{
    let counted = counted(changes, is_changed)?;
    counted.checked_add(flying).ok_or(AllocError)?;
    Ok(counted)
}

/// Makes room in Local for one change beside those of what flies.
pub(crate) fn make_room_beside<T: TreeLike>(
    local: &mut Local<T>,
    flying: u64,
) -> Result<(), AllocError>
    ensures room { OnOk result (2 * flying + 1 ≤ local.new.spare) }
    ensures keeps { KeepsLocal local.old local.new }
    ensures laid { local.new.laid ≡ local.old.laid }
    ensures laid_then { local.new.laid_then ≡ local.old.laid_then }
{
    let double = flying.checked_mul(2).ok_or(AllocError)?;
    local.reserve(double.checked_add(1).ok_or(AllocError)?)
}
