ghost use Rattle.std.specs.Prelude.{◌≡◌, IfOk};
ghost use Rattle.nuc_world.specs.Form.{CanTake};
ghost use Rattle.nuc_world.specs.Parts.{member_now, member_then, shared_now, shared_then};
ghost use Rattle.nuc_world.specs.Takes as spec;

use crate::committing::make_commit;
use crate::folder_work::carry_out;
use crate::shared::Shared;
use crate::starting::is_upload;
use nuc_base::{Change, Node, TreeLike};
use nuc_class::{Effect, Op};
use nuc_log::{Log, Member, TakeReply};
use nuc_server::Commit;
use std::alloc::{AllocError, Global};

/// The outside change of an operation that has begun is made: a commit at the server, under the number of the client, all
/// else in its folder.
pub(crate) fn take<T: TreeLike>(
    alloc: Global,
    log: &Log,
    by: u32,
    shared: &mut Shared,
    member: &mut Member<T>,
    number: u64,
) -> Result<TakeReply, AllocError>
    requires { CanTake number shared.old.server.now member.old.client.now }
    ensures ok { IfOk result (λ answer. spec.Takes log.now by number
        (record { shared = shared_now shared.old; member = member_now member.old.client member.old.folder }) answer
        (record { shared = shared_now shared.new; member = member_now member.new.client member.new.folder })) }
    ensures settled { member_then member.new.client member.new.folder ≡ member_then member.old.client member.old.folder }
    ensures shared_settled { shared_then shared.new ≡ shared_then shared.old }
{
    let Some(op) = member.client.started(number) else {
        return Ok(TakeReply::NoSuchOp);
    };
    match op.effect {
        Effect::Commit => {
            let is_upload = is_upload(op);
            let commit = commit_of(alloc, op)?;
            let client = &mut member.client;
            make_commit(alloc, log, by, shared, client, number, &commit, is_upload)
        }
        Effect::Disk | Effect::Nothing => carry_out(alloc, shared, member, number),
    }
}

/// What an operation asks of the server.
fn commit_of(alloc: Global, op: &Op) -> Result<Commit, AllocError>
    ensures { IfOk result (λ commit. commit ≡ spec.commit_of op.now) }
{
    Ok(Commit {
        id: op.id,
        base: op.base,
        value: committed(alloc, &op.remote)?,
    })
}

/// The node that a change puts, with a name in memory of its own.
fn committed(alloc: Global, change: &Change) -> Result<Option<Node>, AllocError>
    ensures { IfOk result (λ node. node ≡ spec.committed change.now) }
{
    match change {
        Change::Put(node) => Ok(Some(node.copy(alloc)?)),
        _ => Ok(None),
    }
}
