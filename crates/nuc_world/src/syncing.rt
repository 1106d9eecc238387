ghost use Rattle.std.specs.Prelude.{◌≡◌, IfOk};
ghost use Rattle.nuc_replica.specs.Following.{IsAt};
ghost use Rattle.nuc_server.specs.WebEdits.{WebState};
ghost use Rattle.nuc_step.specs.Planning.{CanPlan};
ghost use Rattle.nuc_world.specs.Marks as mark;
ghost use Rattle.nuc_world.specs.Parts.{member_then, shared_then, turn_of, turn_with};
ghost use Rattle.nuc_world.specs.Step as spec;

use crate::shared::Shared;
use nuc_base::TreeLike;
use nuc_log::{MarkReply, Member};
use nuc_measure::differing;
use nuc_step::{Client, DoneReply, Planned};
use std::alloc::{AllocError, Global};

/// What a client has pulled.
#[derive(Clone, Copy, Debug, PartialEq, Eq)]
pub(crate) struct Pulled {
    /// How many entries.
    pub(crate) entries: u64,
    /// The cursor after them.
    pub(crate) cursor: u64,
}

/// The client takes a page of the server's journal over into Remote.
pub(crate) fn pull<T: TreeLike>(
    alloc: Global,
    shared: &Shared,
    member: &mut Member<T>,
) -> Result<Pulled, AllocError>
    requires { IsAt shared.now.server.now member.old.client.now.remote }
    ensures ok { IfOk result (λ pulled. spec.Pulls pulled.entries pulled.cursor (turn_of shared.now member.old.client member.old.folder) (turn_of shared.now member.new.client member.new.folder)) }
    ensures settled { member_then member.new.client member.new.folder ≡ member_then member.old.client member.old.folder }
{
    let page = shared.server.journal().page(member.client.cursor());
    let cursor = member.client.pull(alloc, page)?;
    Ok(Pulled {
        entries: page.len() as u64,
        cursor,
    })
}

/// The client plans what comes next.
pub(crate) fn plan<T: TreeLike>(
    alloc: Global,
    shared: &mut Shared,
    member: &mut Member<T>,
) -> Result<Planned, AllocError>
    requires { CanPlan member.old.client.now shared.old.ids.next_id }
    ensures ok { IfOk result (λ answer. spec.Plans answer (turn_of shared.old member.old.client member.old.folder) (turn_of shared.new member.new.client member.new.folder)) }
    ensures settled { member_then member.new.client member.new.folder ≡ member_then member.old.client member.old.folder }
    ensures shared_settled { shared_then shared.new ≡ shared_then shared.old }
{
    member
        .client
        .plan(alloc, &mut shared.ids, &mut shared.edits)
}

/// The client learns how an operation ended. Only room for an adoption is wanted.
pub(crate) fn done<T: TreeLike>(
    shared: &mut Shared,
    member: &mut Member<T>,
    number: u64,
) -> Result<DoneReply, AllocError>
    ensures ok { IfOk result (λ answer. spec.Dones number answer (turn_of shared.old member.old.client member.old.folder) (turn_of shared.new member.new.client member.new.folder)) }
    ensures settled { member_then member.new.client member.new.folder ≡ member_then member.old.client member.old.folder }
    ensures shared_settled { shared_then shared.new ≡ shared_then shared.old }
{
    shared.edits.reserve(1)?;
    Ok(member.client.done(number, &mut shared.edits))
}

/// The client forgets what is in flight, and the listing that it holds.
pub(crate) fn restart<T: TreeLike>(member: &mut Member<T>)
    ensures now { (s : WebState) → turn_with s member.new.client member.new.folder ≡ spec.after_restarting (turn_with s member.old.client member.old.folder) }
    ensures settled { member_then member.new.client member.new.folder ≡ member_then member.old.client member.old.folder }
{
    member.client.restart();
}

/// Whether nothing is in flight and the three trees are equal; if not, how many identities differ.
pub(crate) fn mark<T: TreeLike>(client: &Client<T>) -> MarkReply
    ensures { mark.Marks client.now.now result }
{
    let count = differing(client.remote(), client.local(), client.synced());
    if client.flying() == 0 && count == 0 {
        MarkReply::Quiet
    } else {
        MarkReply::Stalled(count)
    }
}
