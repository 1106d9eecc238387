ghost use Rattle.std.specs.Prelude.{◌≡◌, ◌++◌, ◌∷◌, [], IfErr, IfOk, OnErr, OnOk, None, Some};
ghost use Rattle.nuc_log.specs.declared.log.LogEntry.TheVariants as entry;
ghost use Rattle.nuc_world.specs.Parts.{member_now, member_then, shared_now, shared_then, turn_of, turn_then};
ghost use Rattle.nuc_world.specs.Shares.{EditsShared, SharesStep, StopsShared};
ghost use Rattle.nuc_world.specs.Turns.{CanTurn, StepsTurn, StopsTurn, client_in};
ghost use Rattle.nuc_world.specs.Units.{Refuses, units_of};
ghost use Rattle.nuc_edits.specs.Edits.{IsNext};
ghost use Rattle.nuc_server.specs.WebEdits.{IsNextId};

use crate::book::Book;
use crate::member::{back, settle};
use crate::observing::ListFault;
use crate::shared::Shared;
use crate::stop::Stop;
use crate::turn::turn;
use nuc_base::TreeLike;
use nuc_log::{Event, Member, Reply};
use nuc_server::{WebEdit, WebReply};
use std::alloc::{AllocError, Global};

/// A member takes a step. It is entered before anything is settled; where it isn't, all goes back.
pub(crate) fn step_member<T: TreeLike + Drop>(
    alloc: Global,
    book: &mut Book,
    shared: &mut Shared,
    member: &mut Member<T>,
    event: Event,
) -> Result<(), Stop>
    requires ready { CanTurn (shared_now shared.old) (member_now member.old.client member.old.folder) }
    requires client { (c : _) × (client_in event ≡ Some c) }
    requires shared_settled { shared_then shared.old ≡ shared_now shared.old }
    requires settled { member_then member.old.client member.old.folder ≡ member_now member.old.client member.old.folder }
    ensures ok { OnOk result (StepsTurn book.old event (turn_of shared.old member.old.client member.old.folder) (turn_of shared.new member.new.client member.new.folder) book.new) }
    ensures err { IfErr result (λ stop. StopsTurn book.old event stop (turn_of shared.old member.old.client member.old.folder) (turn_of shared.new member.new.client member.new.folder) × (book.new ≡ book.old)) }
    ensures shared_settled { shared_then shared.new ≡ shared_now shared.new }
    ensures settled { member_then member.new.client member.new.folder ≡ member_now member.new.client member.new.folder }
{
    if book.is_full() {
        return Err(Stop::LogFull);
    }
    match turn(alloc, book.log(), shared, member, &event) {
        Ok(reply) => enter_turn(book, shared, member, event, reply),
        Err(ListFault::Failed) => {
            settle(member);
            Err(Stop::FolderFault)
        }
        Err(ListFault::TooLong(count)) => {
            all_back(shared, member);
            Err(Stop::TooLong(count))
        }
        Err(ListFault::Memory) => {
            all_back(shared, member);
            Err(Stop::Memory)
        }
    }
}

/// A turn that was made is entered, and settled; where it isn't entered, it is taken back.
fn enter_turn<T: TreeLike + Drop>(
    book: &mut Book,
    shared: &mut Shared,
    member: &mut Member<T>,
    event: Event,
    reply: Reply,
) -> Result<(), Stop>
    ensures ok { OnOk result (book.new ≡ book.old ++ entry.Stepped event reply ∷ []) }
    ensures now { OnOk result (turn_of shared.new member.new.client member.new.folder ≡ turn_of shared.old member.old.client member.old.folder) }
    ensures err { OnErr result (book.new ≡ book.old) }
    ensures back { OnErr result (turn_of shared.new member.new.client member.new.folder ≡ turn_then shared.old member.old.client member.old.folder) }
    ensures why { IfErr result (λ why. Refuses (units_of book.old) reply why) }
    ensures shared_settled { shared_then shared.new ≡ shared_now shared.new }
    ensures settled { member_then member.new.client member.new.folder ≡ member_now member.new.client member.new.folder }
{
    match book.enter(event, reply) {
        Ok(()) => {
            shared.settle();
            settle(member);
            Ok(())
        }
        Err(stop) => {
            all_back(shared, member);
            Err(stop)
        }
    }
}

/// What there was at the last settling is there again.
fn all_back<T: TreeLike + Drop>(shared: &mut Shared, member: &mut Member<T>)
    ensures now { turn_of shared.new member.new.client member.new.folder ≡ turn_then shared.old member.old.client member.old.folder }
    ensures shared_settled { shared_then shared.new ≡ shared_now shared.new }
    ensures settled { member_then member.new.client member.new.folder ≡ member_now member.new.client member.new.folder }
{
    shared.back();
    back(member);
}

/// What all clients share is edited on the web.
pub(crate) fn step_shared(
    alloc: Global,
    book: &mut Book,
    shared: &mut Shared,
    event: Event,
) -> Result<(), Stop>
    requires web { client_in event ≡ None }
    requires versions { IsNext shared.old.ids.next_ver shared.old.edits.now.edits }
    requires identities { IsNextId shared.old.ids.next_id shared.old.server.now }
    requires settled { shared_then shared.old ≡ shared_now shared.old }
    ensures ok { OnOk result (SharesStep book.old event (shared_now shared.old) (shared_now shared.new) book.new) }
    ensures err { IfErr result (λ stop. StopsShared book.old stop × (shared_now shared.new ≡ shared_now shared.old) × (book.new ≡ book.old)) }
    ensures settled { shared_then shared.new ≡ shared_now shared.new }
{
    if book.is_full() {
        return Err(Stop::LogFull);
    }
    let Event::Web { edit } = event else {
        unreachable!()
    };
    let Ok(reply) = edit_on_web(alloc, shared, &edit) else {
        shared.back();
        return Err(Stop::Memory);
    };
    match book.enter(Event::Web { edit }, Reply::Web(reply)) {
        Ok(()) => {
            shared.settle();
            Ok(())
        }
        Err(stop) => {
            shared.back();
            Err(stop)
        }
    }
}

fn edit_on_web(alloc: Global, shared: &mut Shared, edit: &WebEdit) -> Result<WebReply, AllocError>
    requires versions { IsNext shared.old.ids.next_ver shared.old.edits.now.edits }
    requires identities { IsNextId shared.old.ids.next_id shared.old.server.now }
    ensures ok { IfOk result (λ answer. EditsShared edit.now answer (shared_now shared.old) (shared_now shared.new)) }
    ensures settled { shared_then shared.new ≡ shared_then shared.old }
{
    match shared.server.web(
        alloc,
        edit,
        &mut shared.store,
        &mut shared.edits,
        &mut shared.ids,
    ) {
        WebReply::Memory => Err(AllocError),
        reply => Ok(reply),
    }
}
