ghost use Rattle.std.specs.Prelude.{◌≡◌, ◌≢◌, [], IfOk, IsSomeAnd, OnOk, is_some};
ghost use Rattle.std.specs.Option.{option_copied, unwrap_or};
ghost use Rattle.nuc_blocks.specs.Blocks.{first_missing};
ghost use Rattle.nuc_class.specs.declared.op.Op.{Op};
ghost use Rattle.nuc_filework.specs.Calls.{calls_of};
ghost use Rattle.nuc_filework.specs.Runs.{RunsOp};
ghost use Rattle.nuc_flights.specs.Flights.{IsStarted, StandsAt, flight_of};
ghost use Rattle.nuc_folder.specs.Memory.{MemStates};
ghost use Rattle.nuc_step.specs.Sound.{FitsOutcome};
ghost use Rattle.nuc_step.specs.Stages.{started_of};
ghost use Rattle.nuc_world.specs.Parts.{FolderKeeps, folder_view, member_now, member_then, shared_now};
ghost use Rattle.nuc_world.specs.Takes as spec;

use crate::committing::{content_in, tell};
use crate::shared::Shared;
use nuc_base::{Change, Kind, Node, TreeLike};
use nuc_blocks::AssembleFault;
use nuc_class::{Op, Verb};
use nuc_filework::run_op;
use nuc_flights::Taken;
use nuc_folder::{MemFolder, Outcome, RanOp};
use nuc_hash::{Content, content_of};
use nuc_log::{Member, TakeReply};
use nuc_observe::Keys;
use nuc_transfer::download;
use sqlite_items::Items;
use std::alloc::{AllocError, Global};

/// The change of an operation that has begun is carried out in the folder.
pub(crate) fn carry_out<T: TreeLike>(
    alloc: Global,
    shared: &Shared,
    member: &mut Member<T>,
    number: u64,
) -> Result<TakeReply, AllocError>
    requires { IsSomeAnd (started_of (flight_of number member.old.client.now.flights)) (λ op. op.verb ≢ Verb.Adopt) }
    ensures ok { IfOk result (λ answer. IsSomeAnd (started_of (flight_of number member.old.client.now.flights)) (λ op. spec.CarriesOut number op
        (record { shared = shared_now shared.now; member = member_now member.old.client member.old.folder }) answer
        (record { shared = shared_now shared.now; member = member_now member.new.client member.new.folder }))) }
    ensures settled { member_then member.new.client member.new.folder ≡ member_then member.old.client member.old.folder }
{
    let Some(op) = member.client.started(number) else {
        unreachable!()
    };
    let ran = work(alloc, shared, op, member.client.keys(), &mut member.folder)?;
    tell(
        alloc,
        &mut member.client,
        number,
        Taken::Folder(ran.outcome),
        &[],
    )?;
    Ok(TakeReply::Folder(ran))
}

/// The folder's calls of an operation are made, with the bytes from the store where some are to be written.
fn work(
    alloc: Global,
    shared: &Shared,
    op: &Op,
    keys: &Keys,
    folder: &mut MemFolder,
) -> Result<RanOp, AllocError>
    ensures known { IfOk result (λ ran. ran.outcome ≢ Outcome.Memory) }
    ensures fits { op.now.verb ≢ Verb.Adopt → IfOk result (λ ran. FitsOutcome op.now ran.outcome) }
    ensures keeps { FolderKeeps folder.old folder.new }
    ensures runs { IfOk result (λ ran. RunsOp keys.now.now (unwrap_or (spec.bytes_for (shared_now shared.now) op.now) [])
        (calls_of keys.now.now op.now (spec.seen_content shared.now.edits.now.edits op.now) (spec.wanted_content shared.now.edits.now.edits op.now) (is_some (spec.bytes_for (shared_now shared.now) op.now)))
        (folder_view folder.old) ran (folder_view folder.new)) }
{
    let nothing = content_of(alloc, &[])?;
    let seen = content_in(&shared.edits, op.old_local.as_ref()).unwrap_or(&nothing);
    let wanted = content_in(&shared.edits, put_by(&op.local)).unwrap_or(&nothing);
    let bytes = bytes_for(alloc, shared, op, seen, wanted)?;
    let ran = run(alloc, op, slice_of(&bytes), keys, folder, seen, wanted);
    if ran.outcome == Outcome::Memory {
        return Err(AllocError);
    }
    Ok(ran)
}

/// The calls are made, of a folder in memory.
fn run(
    alloc: Global,
    op: &Op,
    bytes: Option<&[u8]>,
    keys: &Keys,
    folder: &mut MemFolder,
    seen: &Content,
    wanted: &Content,
) -> RanOp
    ensures fits { op.now.verb ≢ Verb.Adopt → FitsOutcome op.now result.outcome }
    ensures keeps { FolderKeeps folder.old folder.new }
    ensures runs { RunsOp keys.now.now (unwrap_or (option_copied bytes.entry) [])
        (calls_of keys.now.now op.now seen.now wanted.now (is_some bytes.entry)) (folder_view folder.old) result (folder_view folder.new) }
{
    run_op(alloc, op, bytes, keys, folder, seen, wanted)
}

fn slice_of(bytes: &Option<Items<u8>>) -> Option<&[u8]>
    ensures { option_copied result ≡ bytes.now }
{
    match bytes {
        Some(bytes) => Some(bytes.as_slice()),
        None => None,
    }
}

/// The bytes that an operation writes, where it writes some and the store has all their blocks.
fn bytes_for(
    alloc: Global,
    shared: &Shared,
    op: &Op,
    seen: &Content,
    wanted: &Content,
) -> Result<Option<Items<u8>>, AllocError>
    requires seen { seen.now ≡ spec.seen_content shared.now.edits.now.edits op.now }
    requires wanted { wanted.now ≡ spec.wanted_content shared.now.edits.now.edits op.now }
    ensures { IfOk result (λ bytes. bytes ≡ spec.bytes_for (shared_now shared.now) op.now) }
{
    if !writes(op, seen.hash().0 == wanted.hash().0) {
        return Ok(None);
    }
    match download(alloc, wanted, &shared.store) {
        Ok(bytes) => Ok(Some(bytes)),
        Err(AssembleFault::NoBlock(_)) => Ok(None),
        Err(AssembleFault::Memory) => Err(AllocError),
    }
}

/// Whether bytes are written: those of a new file, or new ones of a file that is there.
fn writes(op: &Op, same: bool) -> bool
    ensures { result ≡ spec.writes_by op.now.verb op.now.old_local op.now.local same }
{
    match op.verb {
        Verb::Adopt | Verb::Split => false,
        _ => writes_over(op.old_local.as_ref(), &op.local, same),
    }
}

fn writes_over(old: Option<&Node>, local: &Change, same: bool) -> bool
    ensures { result ≡ spec.writes (option_copied old.entry) local.now same }
{
    match (old, local) {
        (None, Change::Put(node)) => node.kind == Kind::File,
        (Some(_), Change::Put(_)) => !same,
        _ => false,
    }
}

/// The node that a change puts.
fn put_by(change: &Change) -> Option<&Node>
    ensures { option_copied result ≡ spec.committed change.now }
{
    match change {
        Change::Put(node) => Some(node),
        _ => None,
    }
}
