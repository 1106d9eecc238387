ghost use Rattle.std.specs.Prelude.{◌≡◌, IfOk};
ghost use Rattle.std.specs.Option.{option_copied};
ghost use Rattle.nuc_flights.specs.Flights.{IsPlanned, StandsAt};
ghost use Rattle.nuc_world.specs.Parts.{member_now, member_then};
ghost use Rattle.nuc_world.specs.Starts as spec;

use crate::member::{begin, end};
use nuc_base::{Change, Kind, Node, TreeLike, Ver};
use nuc_class::{Op, Verb};
use nuc_folder::{Folder, Key, Outcome, ReadBack};
use nuc_log::{Member, StartReply};
use std::alloc::{AllocError, Global};

/// An operation begins. An upload reads its file; where that isn't there or can't be read, the operation is taken so.
pub(crate) fn start<T: TreeLike>(
    alloc: Global,
    member: &mut Member<T>,
    number: u64,
) -> Result<StartReply, AllocError>
    ensures ok { IfOk result (λ answer. spec.Starts number (member_now member.old.client member.old.folder) answer (member_now member.new.client member.new.folder)) }
    ensures settled { member_then member.new.client member.new.folder ≡ member_then member.old.client member.old.folder }
{
    let Some(op) = member.client.planned(number) else {
        return Ok(StartReply::NoSuchOp);
    };
    if !is_upload(op) {
        begin(&mut member.client, number);
        return Ok(StartReply::Ok { bytes: None });
    }
    match member.client.keys().key_of(op.id) {
        Some(key) => read_file(alloc, member, number, key),
        None => {
            end(alloc, &mut member.client, number, Outcome::Changed)?;
            Ok(StartReply::Changed)
        }
    }
}

/// An upload reads the file of this key.
fn read_file<T: TreeLike>(
    alloc: Global,
    member: &mut Member<T>,
    number: u64,
    key: Key,
) -> Result<StartReply, AllocError>
    requires { StandsAt number IsPlanned member.old.client.now.flights }
    ensures ok { IfOk result (λ answer. spec.Reads number key.0 (member_now member.old.client member.old.folder) answer (member_now member.new.client member.new.folder)) }
    ensures settled { member_then member.new.client member.new.folder ≡ member_then member.old.client member.old.folder }
{
    match member.folder.read(alloc, key) {
        ReadBack::Bytes(bytes) => {
            begin(&mut member.client, number);
            Ok(StartReply::Ok { bytes: Some(bytes) })
        }
        ReadBack::Changed => {
            end(alloc, &mut member.client, number, Outcome::Changed)?;
            Ok(StartReply::Changed)
        }
        ReadBack::Failed => {
            end(alloc, &mut member.client, number, Outcome::Failed)?;
            Ok(StartReply::Failed)
        }
        ReadBack::Memory => Err(AllocError),
    }
}

/// Whether an operation brings the content of a file to the server: one that is new there, or whose version isn't the one
/// that was agreed on.
pub(crate) fn is_upload(op: &Op) -> bool
    ensures { result ≡ spec.is_upload op.now }
{
    matches!(op.verb, Verb::Up) && brings_content(&op.remote, op.base, op.old_synced.as_ref())
}

fn brings_content(remote: &Change, base: u64, agreed: Option<&Node>) -> bool
    ensures { result ≡ spec.brings_content remote.now base (option_copied agreed.entry) }
{
    match remote {
        Change::Put(node) => {
            node.kind == Kind::File && (base == 0 || !has_version(agreed, node.ver))
        }
        _ => false,
    }
}

fn has_version(node: Option<&Node>, ver: Ver) -> bool
    ensures { result ≡ spec.has_version (option_copied node.entry) ver.0 }
{
    match node {
        Some(node) => node.ver.0 == ver.0,
        None => false,
    }
}
