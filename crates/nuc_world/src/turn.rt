ghost use Rattle.std.specs.Prelude.{◌≡◌, None, Some, IfErr, IfOk, IfSome};
ghost use Rattle.nuc_server.specs.WebEdits.{WebState};
ghost use Rattle.nuc_world.specs.Parts.{member_now, member_then, shared_now, shared_then, turn_of, turn_with};
ghost use Rattle.nuc_world.specs.Step as spec;
ghost use Rattle.nuc_world.specs.Turns.{CanTurn, IsList, MissesTurn, client_in};

use crate::observing::{ListFault, Listing, list, scan, user, watch};
use crate::shared::Shared;
use crate::starting::start;
use crate::syncing::{done, mark, plan, pull, restart};
use crate::taking::take;
use nuc_base::TreeLike;
use nuc_log::{Event, Log, Member, Reply};
use std::alloc::{AllocError, Global};

/// The client of an event, where it isn't the web's.
pub(crate) fn client_of(event: &Event) -> Option<u32>
    ensures { result ≡ client_in event.now }
{
    match event {
        Event::Web { .. } => None,
        Event::User { client, .. }
        | Event::List { client }
        | Event::Scan { client }
        | Event::Watch { client }
        | Event::Pull { client }
        | Event::Plan { client }
        | Event::Start { client, .. }
        | Event::Take { client, .. }
        | Event::Done { client, .. }
        | Event::Restart { client }
        | Event::Mark { client } => Some(*client),
    }
}

/// A client does what an event asks for. A listing is what can fail; where it does, its folder's calls are counted.
pub(crate) fn turn<T: TreeLike + Drop>(
    alloc: Global,
    log: &Log,
    shared: &mut Shared,
    member: &mut Member<T>,
    event: &Event,
) -> Result<Reply, ListFault>
    requires ready { CanTurn (shared_now shared.old) (member_now member.old.client member.old.folder) }
    requires client { (c : _) × (client_in event.now ≡ Some c) }
    ensures ok { IfOk result (λ reply. spec.Does log.now event.now reply (turn_of shared.old member.old.client member.old.folder) (turn_of shared.new member.new.client member.new.folder)) }
    ensures err { IfErr result (λ why. MissesTurn event.now why (turn_of shared.old member.old.client member.old.folder) (turn_of shared.new member.new.client member.new.folder)) }
    ensures settled { member_then member.new.client member.new.folder ≡ member_then member.old.client member.old.folder }
    ensures shared_settled { shared_then shared.new ≡ shared_then shared.old }
{
    match event {
        Event::List { .. } => match list(alloc, member) {
            Ok(listing) => Ok(listed(listing)),
            Err(fault) => Err(fault),
        },
        _ => match surely(alloc, log, shared, member, event) {
            Ok(reply) => Ok(reply),
            Err(_) => Err(ListFault::Memory),
        },
    }
}

fn listed(listing: Listing) -> Reply
    ensures { result ≡ Reply.Listed listing.changes listing.items }
{
    Reply::Listed {
        changes: listing.changes,
        items: listing.items,
    }
}

/// As `turn`, for an event that can't fail.
fn surely<T: TreeLike + Drop>(
    alloc: Global,
    log: &Log,
    shared: &mut Shared,
    member: &mut Member<T>,
    event: &Event,
) -> Result<Reply, AllocError>
    requires ready { CanTurn (shared_now shared.old) (member_now member.old.client member.old.folder) }
    requires client { (c : _) × (client_in event.now ≡ Some c) }
    requires other { ¬ (IsList event.now) }
    ensures ok { IfOk result (λ reply. spec.Does log.now event.now reply (turn_of shared.old member.old.client member.old.folder) (turn_of shared.new member.new.client member.new.folder)) }
    ensures settled { member_then member.new.client member.new.folder ≡ member_then member.old.client member.old.folder }
    ensures shared_settled { shared_then shared.new ≡ shared_then shared.old }
{
    match event {
        Event::User { edit, .. } => Ok(Reply::User(user(alloc, &mut member.folder, edit)?)),
        Event::Scan { .. } => Ok(Reply::Scan(scan(alloc, shared, member)?)),
        Event::Watch { .. } => match watch(alloc, shared, member)? {
            Some(answer) => Ok(Reply::Watch(answer)),
            None => Ok(Reply::Nothing),
        },
        Event::Pull { .. } => {
            let pulled = pull(alloc, shared, member)?;
            Ok(Reply::Pulled {
                entries: pulled.entries,
                cursor: pulled.cursor,
            })
        }
        Event::Plan { .. } => Ok(Reply::Plan(plan(alloc, shared, member)?)),
        Event::Start { number, .. } => Ok(Reply::Started(start(alloc, member, *number)?)),
        Event::Take { client, number } => {
            let answer = take(alloc, log, *client, shared, member, *number)?;
            Ok(Reply::Took(answer))
        }
        Event::Done { number, .. } => Ok(Reply::Done(done(shared, member, *number)?)),
        Event::Restart { .. } => {
            restart(member);
            Ok(Reply::Restarted)
        }
        Event::Mark { .. } => Ok(Reply::Marked(mark(&member.client))),
        Event::List { .. } | Event::Web { .. } => unreachable!(),
    }
}
