ghost use Rattle.std.specs.Prelude.{◌≡◌, [], IfOk, IfSome, OnOk};
ghost use Rattle.std.specs.Option.{option_copied};
ghost use Rattle.nuc_flights.specs.Flights.{IsStarted, StandsAt, flight_of};
ghost use Rattle.nuc_journal.specs.Journal.{IsJournal};
ghost use Rattle.nuc_observe.specs.Versions.{is_of_hash};
ghost use Rattle.nuc_replica.specs.Following.{IsAt};
ghost use Rattle.nuc_replica.specs.Remote.{Follows};
ghost use Rattle.nuc_server.specs.Judge.{IsCommit};
ghost use Rattle.nuc_step.specs.Calls.{MayBeTaken};
ghost use Rattle.nuc_step.specs.Steps.{after_take};
ghost use Rattle.nuc_world.specs.Parts.{shared_now, shared_then};
ghost use Rattle.nuc_world.specs.Starts.{with_client};
ghost use Rattle.nuc_world.specs.State.{MemberState};
ghost use Rattle.nuc_hash.specs.Content.{content_of};
ghost use Rattle.nuc_world.specs.Committing.{KeepsRecorded};
ghost use Rattle.nuc_world.specs.Takes as spec;

use crate::reading::read_in;
use crate::shared::Shared;
use nuc_base::{Node, TreeLike};
use nuc_blocks::keep_blocks;
use nuc_edits::Edits;
use nuc_flights::Taken;
use nuc_folder::{Outcome, RanOp};
use nuc_hash::{Content, content_of};
use nuc_journal::Entry;
use nuc_log::{Log, TakeReply};
use nuc_server::{Commit, CommitReply};
use nuc_step::Client;
use std::alloc::{AllocError, Global};

/// A commit that has begun is made, under the number of the client. An upload stores the blocks of what its Start read,
/// where that is what was recorded; else nothing is committed.
pub(crate) fn make_commit<T: TreeLike>(
    alloc: Global,
    log: &Log,
    by: u32,
    shared: &mut Shared,
    client: &mut Client<T>,
    number: u64,
    commit: &Commit,
    is_upload: bool,
) -> Result<TakeReply, AllocError>
    requires started { StandsAt number IsStarted client.old.now.flights }
    requires commit { IsCommit commit.now }
    requires at { IsAt shared.old.server.now client.old.now.remote }
    ensures ok { (m : MemberState) → IfOk result (λ answer. spec.Commits log.now by number commit.now is_upload
        (record { shared = shared_now shared.old; member = with_client client.old.now m }) answer (record { shared = shared_now shared.new; member = with_client client.new.now m })) }
    ensures settled { client.new.settled ≡ client.old.settled }
    ensures listing { client.new.listing ≡ client.old.listing }
    ensures shared_settled { shared_then shared.new ≡ shared_then shared.old }
{
    if is_upload {
        commit_read(alloc, log, by, shared, client, number, commit)
    } else {
        judge(alloc, by, shared, client, number, commit)
    }
}

/// An upload is committed.
fn commit_read<T: TreeLike>(
    alloc: Global,
    log: &Log,
    by: u32,
    shared: &mut Shared,
    client: &mut Client<T>,
    number: u64,
    commit: &Commit,
) -> Result<TakeReply, AllocError>
    requires started { StandsAt number IsStarted client.old.now.flights }
    requires commit { IsCommit commit.now }
    requires at { IsAt shared.old.server.now client.old.now.remote }
    ensures ok { (m : MemberState) → IfOk result (λ answer. spec.CommitsRead by number commit.now (spec.read_in by number log.now)
        (record { shared = shared_now shared.old; member = with_client client.old.now m }) answer (record { shared = shared_now shared.new; member = with_client client.new.now m })) }
    ensures settled { client.new.settled ≡ client.old.settled }
    ensures listing { client.new.listing ≡ client.old.listing }
    ensures shared_settled { shared_then shared.new ≡ shared_then shared.old }
{
    let Some(bytes) = read_in(log, by, number) else {
        return outdated(alloc, client, number);
    };
    if keep_recorded(alloc, shared, bytes, &commit.value)? {
        judge(alloc, by, shared, client, number, commit)
    } else {
        outdated(alloc, client, number)
    }
}

/// Stores the blocks of a file, where its content is what was recorded of the version of a node; says whether it is.
fn keep_recorded(
    alloc: Global,
    shared: &mut Shared,
    bytes: &[u8],
    value: &Option<Node>,
) -> Result<bool, AllocError>
    ensures ok { IfOk result (λ recorded. KeepsRecorded bytes.now (spec.is_recorded shared.old.edits.now.edits (content_of bytes.now).hash value.now) (shared_now shared.old) recorded (shared_now shared.new)) }
    ensures settled { shared_then shared.new ≡ shared_then shared.old }
{
    let content = content_of(alloc, bytes)?;
    if !is_recorded(&shared.edits, &content, value) {
        return Ok(false);
    }
    keep_blocks(&mut shared.store, alloc, bytes, content.blocks())?;
    Ok(true)
}

/// What was read isn't what was recorded.
fn outdated<T: TreeLike>(
    alloc: Global,
    client: &mut Client<T>,
    number: u64,
) -> Result<TakeReply, AllocError>
    requires started { StandsAt number IsStarted client.old.now.flights }
    ensures reply { IfOk result (λ answer. answer ≡ TakeReply.Folder (record { outcome = Outcome.Changed; made = 0 })) }
    ensures now { OnOk result (client.new.now ≡ after_take number (Taken.Folder Outcome.Changed) [] client.old.now) }
    ensures settled { client.new.settled ≡ client.old.settled }
    ensures listing { client.new.listing ≡ client.old.listing }
{
    tell(alloc, client, number, Taken::Folder(Outcome::Changed), &[])?;
    Ok(TakeReply::Folder(RanOp {
        outcome: Outcome::Changed,
        made: 0,
    }))
}

/// The server judges a commit, and the client is told.
fn judge<T: TreeLike>(
    alloc: Global,
    by: u32,
    shared: &mut Shared,
    client: &mut Client<T>,
    number: u64,
    commit: &Commit,
) -> Result<TakeReply, AllocError>
    requires started { StandsAt number IsStarted client.old.now.flights }
    requires commit { IsCommit commit.now }
    requires at { IsAt shared.old.server.now client.old.now.remote }
    ensures ok { (m : MemberState) → IfOk result (λ answer. spec.IsJudged by number commit.now
        (record { shared = shared_now shared.old; member = with_client client.old.now m }) answer (record { shared = shared_now shared.new; member = with_client client.new.now m })) }
    ensures settled { client.new.settled ≡ client.old.settled }
    ensures listing { client.new.listing ≡ client.old.listing }
    ensures shared_settled { shared_then shared.new ≡ shared_then shared.old }
{
    let content = content_in(&shared.edits, commit.value.as_ref());
    match shared
        .server
        .commit(alloc, commit, content, &shared.store, by)
    {
        CommitReply::Accepted(rev) => {
            let news = shared.server.journal().since(client.cursor());
            tell(alloc, client, number, Taken::Accepted(rev), news)?;
            Ok(TakeReply::Accepted(rev))
        }
        CommitReply::Refused(why) => {
            tell(alloc, client, number, Taken::Refused(why), &[])?;
            Ok(TakeReply::Refused(why))
        }
        CommitReply::Memory => Err(AllocError),
    }
}

/// The client is told what came of an operation that has begun, with the server's news.
pub(crate) fn tell<T: TreeLike>(
    alloc: Global,
    client: &mut Client<T>,
    number: u64,
    taken: Taken,
    news: &[Entry],
) -> Result<(), AllocError>
    requires started { StandsAt number IsStarted client.old.now.flights }
    requires news { Follows client.old.now.remote news.now }
    requires fits { IfSome (flight_of number client.old.now.flights) (MayBeTaken client.old.now.remote news.now taken) }
    ensures ok { OnOk result (client.new.now ≡ after_take number taken news.now client.old.now) }
    ensures settled { client.new.settled ≡ client.old.settled }
    ensures listing { client.new.listing ≡ client.old.listing }
{
    match client.take(alloc, number, taken, news) {
        Ok(()) => Ok(()),
        Err(_) => Err(AllocError),
    }
}

/// Whether the version of a node was recorded with the hash of this content.
fn is_recorded(edits: &Edits, content: &Content, value: &Option<Node>) -> bool
    ensures { result ≡ spec.is_recorded edits.now.now.edits content.now.hash value.now }
{
    match content_in(edits, value.as_ref()) {
        Some(recorded) => recorded.hash().0 == content.hash().0,
        None => false,
    }
}

/// The content of the version of a node, where one was put.
pub(crate) fn content_in<'a>(edits: &'a Edits, node: Option<&Node>) -> Option<&'a Content>
    ensures { option_copied result ≡ spec.content_in edits.now.now.edits (option_copied node.entry) }
{
    edits.content(node?.ver)
}
