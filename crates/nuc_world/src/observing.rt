ghost use Rattle.std.specs.Prelude.{◌≡◌, ◌≢◌, IfErr, IfOk};
ghost use Rattle.nuc_folder.specs.User.{UserAnswers};
ghost use Rattle.nuc_server.specs.WebEdits.{WebState};
ghost use Rattle.nuc_step.specs.Watching.{CanWatch};
ghost use Rattle.nuc_world.specs.Parts.{member_now, member_then, shared_then, turn_of, turn_with};
ghost use Rattle.nuc_world.specs.Step as spec;
ghost use Rattle.nuc_world.specs.Unlisted.{Unlists};
ghost use Rattle.nuc_world.specs.Watched.{WatchesOldest};

use crate::shared::Shared;
use nuc_base::TreeLike;
use nuc_folder::{Folder, Item, Listed, MemFolder, UserEdit, UserReply};
use nuc_log::Member;
use nuc_step::{ListReply, Scanned, WatchReply};
use sqlite_items::Items;
use std::alloc::{AllocError, Global};

/// Why a folder wasn't listed.
#[derive(Clone, Copy, Debug, PartialEq, Eq)]
pub(crate) enum ListFault {
    /// The folder failed.
    Failed,
    /// There are so many items, too many for a listing.
    TooLong(u64),
    Memory,
}

/// A listing, and how often Local had changed when it was made.
#[derive(Drop)]
pub(crate) struct Listing {
    pub(crate) changes: u64,
    pub(crate) items: Items<Item>,
}

/// The user edits the folder.
pub(crate) fn user(
    alloc: Global,
    folder: &mut MemFolder,
    edit: &UserEdit,
) -> Result<UserReply, AllocError>
    ensures answers { IfOk result (λ answer. UserAnswers edit.now folder.old.now answer folder.new.now) }
    ensures known { IfOk result (λ answer. answer ≢ UserReply.Memory) }
    ensures settled { folder.new.settled ≡ folder.old.settled }
    ensures calls { folder.new.calls ≡ folder.old.calls }
{
    match folder.user(alloc, edit) {
        UserReply::Memory => Err(AllocError),
        reply => Ok(reply),
    }
}

/// The client lists its folder, and holds a copy of the listing that is answered.
pub(crate) fn list<T: TreeLike>(alloc: Global, member: &mut Member<T>) -> Result<Listing, ListFault>
    ensures ok { (s : WebState) → IfOk result (λ listing. spec.Lists listing.changes listing.items (turn_with s member.old.client member.old.folder) (turn_with s member.new.client member.new.folder)) }
    ensures fault { IfErr result (λ fault. Unlists fault (member_now member.old.client member.old.folder) (member_now member.new.client member.new.folder)) }
    ensures settled { member_then member.new.client member.new.folder ≡ member_then member.old.client member.old.folder }
{
    let items = match member.folder.list(alloc) {
        Listed::Items(items) => items,
        Listed::Failed => return Err(ListFault::Failed),
        Listed::TooLong(count) => return Err(ListFault::TooLong(count)),
        Listed::Memory => return Err(ListFault::Memory),
    };
    let Ok(held) = copies(alloc, items.as_slice()) else {
        return Err(ListFault::Memory);
    };
    match member.client.list(held) {
        ListReply::Held(changes) => Ok(Listing { changes, items }),
        ListReply::TooLong(count) => Err(ListFault::TooLong(count)),
    }
}

/// Copies of these items.
fn copies(alloc: Global, items: &[Item]) -> Result<Vec<Item>, AllocError>
    ensures { IfOk result (λ copies. copies.items ≡ items.now) }
{
    let mut copies = Vec::with_capacity(alloc, items.len())?;
    for item in items {
        copies.push(item.copy(alloc)?)?;
    }
    Ok(copies)
}

/// The client takes the listing that it holds over into Local.
pub(crate) fn scan<T: TreeLike + Drop>(
    alloc: Global,
    shared: &mut Shared,
    member: &mut Member<T>,
) -> Result<Scanned, AllocError>
    requires { CanWatch member.old.client.now shared.old.edits.now shared.old.ids }
    ensures ok { IfOk result (λ answer. spec.Scans answer (turn_of shared.old member.old.client member.old.folder) (turn_of shared.new member.new.client member.new.folder)) }
    ensures settled { member_then member.new.client member.new.folder ≡ member_then member.old.client member.old.folder }
    ensures shared_settled { shared_then shared.new ≡ shared_then shared.old }
{
    member
        .client
        .scan(alloc, &mut shared.ids, &mut shared.edits)
}

/// The client takes the user's oldest change over that it wasn't told yet; none where nothing is left.
pub(crate) fn watch<T: TreeLike>(
    alloc: Global,
    shared: &mut Shared,
    member: &mut Member<T>,
) -> Result<Option<WatchReply>, AllocError>
    requires { CanWatch member.old.client.now shared.old.edits.now shared.old.ids }
    ensures ok { IfOk result (λ answer. WatchesOldest answer (turn_of shared.old member.old.client member.old.folder) (turn_of shared.new member.new.client member.new.folder)) }
    ensures settled { member_then member.new.client member.new.folder ≡ member_then member.old.client member.old.folder }
    ensures shared_settled { shared_then shared.new ≡ shared_then shared.old }
{
    let Some(notice) = member.folder.pending(alloc)? else {
        return Ok(None);
    };
    let answer = member
        .client
        .watch(alloc, &notice, &mut shared.ids, &mut shared.edits)?;
    Ok(Some(answer))
}
