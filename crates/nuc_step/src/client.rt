ghost use Rattle.std.specs.Prelude.{◌≡◌, ◌≤◌, ◌<◌, ◌+◌, [], All, IfOk, IfSome, MatchBool, None, Some, length, option_copied, option_map, take, ℕ, OnOk, OnErr};
ghost use Rattle.std.specs.FinMap as map;
ghost use Rattle.nuc_base.specs.Trees.{WellFormed};
ghost use Rattle.nuc_flights.specs.Flights.{IsPlanned, IsTaken, StandsAt, flight_of, taken_of, without};
ghost use Rattle.nuc_replica.specs.Local.{IsLocal};
ghost use Rattle.nuc_replica.specs.Remote.{Follows};
ghost use Rattle.nuc_edits.specs.Edits.{Recorded};
ghost use Rattle.nuc_step.specs.Calls.{FlyAnswers, MayBeTaken, TakeAnswers};
ghost use Rattle.nuc_step.specs.Held.{gone_back, let_go, settled_now};
ghost use Rattle.nuc_step.specs.Sound.{IsClient, MayFly, SettlesLocal, SettlesSynced};
ghost use Rattle.nuc_step.specs.Steps.{IsDone, after_fly, after_pull, after_restart, after_start, after_take};

use crate::counts::Counts;
use crate::held::HeldListing;
use crate::landing::{land_commit, land_in_folder};
use crate::launch::{lay_local, lay_synced, number_from};
use crate::{DoneReply, FlyReply, NoSuchOp, Reason, TakeFault};
use nuc_base::TreeLike;
use nuc_class::Op;
use nuc_edits::Edits;
use nuc_flights::{Flights, Taken};
use nuc_folder::Outcome;
use nuc_journal::Entry;
use nuc_observe::Keys;
use nuc_replica::{Local, Remote};
use nuc_undo::UndoTree;
use std::alloc::{AllocError, Global};
use std::marker::Model;

/// A client: the server's tree at its cursor, the folder as it last observed it, what both last agreed on, the operations
/// in flight, and at most one listing of the folder that is to be taken over into Local.
///
/// An operation is planned by `fly`, begun by `start`, carried out outside and then told by `take`, and ends with `done`.
/// All that a Done needs is made by the calls before it, so that it takes no memory. What `settle` has seen `back` leads
/// to, whatever came between. Each call takes a fixed number of calls of the trees for each operation, entry or change
/// that it is about.
#[derive(Drop)]
pub struct Client<T: TreeLike> {
    pub(crate) remote: Remote<T>,
    pub(crate) local: Local<T>,
    pub(crate) synced: UndoTree<T>,
    pub(crate) flights: Flights,
    pub(crate) counts: Counts,
    /// What was counted at the last `settle`.
    settled_counts: Counts,
    pub(crate) listing: HeldListing,
}

impl<T: TreeLike> Model for Client<T> {
    ghost use Rattle.nuc_step.specs.Client.{ClientStates, clients_code, state_now, state_then};
    ghost use Rattle.nuc_step.specs.Sound.{IsKept};

    ghost Value = { ClientStates };

    ghost coded = { clients_code };

    ghost view = { λ c. record { now = state_now c.remote c.local c.synced c.flights c.counts; settled = state_then c.remote c.local c.synced c.flights c.settled_counts; listing = c.listing } };

    ghost invariant = { λ c. IsKept c.remote c.local c.synced c.flights c.counts c.settled_counts };
}

impl<T: TreeLike> Client<T> {
    /// The client that these make together, settled, with nothing in flight. `changes` counts the changes of Local, and
    /// `next_op` is the number of its next operation, from 1. It takes no memory.
    pub fn of(
        alloc: Global,
        remote: Remote<T>,
        local: Local<T>,
        synced: T,
        changes: u64,
        next_op: u64,
    ) -> Client<T>
        requires synced { WellFormed (T.nodes synced) }
        requires remote_settled { remote.settled ≡ remote.now }
        requires local_settled { local.settled ≡ local.now }
        requires laid { local.laid_then ≡ local.laid }
        ensures now { result.now ≡ record { remote = remote.now; local = local.now; synced = T.nodes synced; flights = []; changes = changes; next_op = next_op } }
        ensures settled { result.settled ≡ result.now }
        ensures listing { result.listing ≡ record { now = None; settled = None } }
    {
        let counts = Counts { changes, next_op };
        Client {
            remote,
            local,
            synced: UndoTree::of(alloc, synced),
            flights: Flights::new(alloc),
            counts,
            settled_counts: counts,
            listing: HeldListing::new(),
        }
    }

    /// The server's tree at the cursor.
    pub fn remote(&self) -> &T
        ensures nodes { T.nodes result.now ≡ self.now.now.remote.tree }
        ensures sound { IsClient self.now.now }
    {
        self.remote.tree()
    }

    /// The folder as it was last observed.
    pub fn local(&self) -> &T
        ensures nodes { T.nodes result.now ≡ self.now.now.local.tree }
        ensures form { WellFormed self.now.now.local.tree }
    {
        self.local.tree()
    }

    /// What the server and the folder last agreed on.
    pub fn synced(&self) -> &T
        ensures nodes { T.nodes result.now ≡ self.now.now.synced }
        ensures form { WellFormed self.now.now.synced }
    {
        self.synced.tree()
    }

    /// The key of the folder that each identity of Local has.
    pub fn keys(&self) -> &Keys
        ensures { result.now.now ≡ self.now.now.local.keys }
    {
        self.local.keys()
    }

    /// The revision up to which Remote has the server's journal.
    pub fn cursor(&self) -> u64
        ensures { result ≡ self.now.now.remote.cursor }
    {
        self.remote.cursor()
    }

    /// How often Local has changed.
    pub fn changes(&self) -> u64
        ensures { result ≡ self.now.now.changes }
    {
        self.counts.changes
    }

    /// The operation in flight under this number.
    pub fn in_flight(&self, number: u64) -> Option<&Op>
        ensures { option_copied result ≡ option_map (λ f. f.op) (flight_of number self.now.now.flights) }
    {
        self.flights.op(number)
    }

    /// How many operations are in flight.
    pub fn flying(&self) -> u64
        ensures { result ≡ length self.now.now.flights }
    {
        self.flights.len()
    }

    /// Puts operations in flight, planned, with the next numbers in order. A commit gets the revision that Remote has of
    /// its identity for its base, 0 where it has none. While others are in flight it does nothing.
    pub fn fly(&mut self, alloc: Global, ops: Vec<Op>) -> FlyReply
        requires { All MayFly ops.items }
        ensures answer { FlyAnswers self.old.now ops.items result self.new.now }
        ensures settled { self.new.settled ≡ self.old.settled }
        ensures listing { self.new.listing ≡ self.old.listing }
    {
        let flying = self.flights.len();
        if flying > 0 {
            return FlyReply::Busy(flying);
        }
        match self.launch(alloc, ops) {
            Ok(()) => FlyReply::Flying,
            Err(_) => FlyReply::Memory,
        }
    }

    pub(crate) fn launch(&mut self, alloc: Global, ops: Vec<Op>) -> Result<(), AllocError>
        requires none { self.old.now.flights ≡ [] }
        requires may { All MayFly ops.items }
        ensures ok { OnOk result (self.new.now ≡ after_fly ops.items self.old.now) }
        ensures err { OnErr result (self.new.now ≡ self.old.now) }
        ensures settled { self.new.settled ≡ self.old.settled }
        ensures listing { self.new.listing ≡ self.old.listing }
    {
        let count = ops.len() as u64;
        let next_op = self.counts.next_op.checked_add(count).ok_or(AllocError)?;
        self.counts.changes.checked_add(count).ok_or(AllocError)?;
        self.local.reserve(count.checked_mul(2).ok_or(AllocError)?)?;
        self.synced.reserve(count)?;
        let mut ops = ops;
        number_from(self.counts.next_op, &self.remote, &mut ops);
        lay_local(alloc, &mut self.local, &ops)?;
        lay_synced(alloc, &mut self.synced, &ops)?;
        self.flights.fly(alloc, ops)?;
        self.counts.next_op = next_op;
        Ok(())
    }

    /// Takes a page of the server's journal over into Remote, and answers with the new cursor. After an `Err` it may have
    /// taken a part of the page.
    pub fn pull(&mut self, alloc: Global, page: &[Entry]) -> Result<u64, AllocError>
        requires { Follows self.old.now.remote page.now }
        ensures ok { OnOk result (self.new.now ≡ after_pull page.now self.old.now) }
        ensures err { OnErr result ((k : ℕ) × (self.new.now ≡ after_pull (take k page.now) self.old.now)) }
        ensures cursor { IfOk result (λ cursor. cursor ≡ self.new.now.remote.cursor) }
        ensures settled { self.new.settled ≡ self.old.settled }
        ensures listing { self.new.listing ≡ self.old.listing }
    {
        self.remote.pull(alloc, page)?;
        Ok(self.remote.cursor())
    }

    /// A planned operation begins.
    pub fn start(&mut self, number: u64) -> Result<(), NoSuchOp>
        ensures ok { OnOk result (StandsAt number IsPlanned self.old.now.flights × (self.new.now ≡ after_start number self.old.now)) }
        ensures none { OnErr result (¬ (StandsAt number IsPlanned self.old.now.flights) × (self.new.now ≡ self.old.now)) }
        ensures settled { self.new.settled ≡ self.old.settled }
        ensures listing { self.new.listing ≡ self.old.listing }
    {
        if self.flights.start(number) {
            Ok(())
        } else {
            Err(NoSuchOp)
        }
    }

    /// An operation that has begun was carried out outside, or couldn't be. With an accepted commit come the server's
    /// entries from the cursor up to it, with any other outcome none. The client hears of them now, and applies them with
    /// the Done.
    pub fn take(
        &mut self,
        alloc: Global,
        number: u64,
        taken: Taken,
        news: &[Entry],
    ) -> Result<(), TakeFault>
        requires news { Follows self.old.now.remote news.now }
        requires fits { IfSome (flight_of number self.old.now.flights) (MayBeTaken self.old.now.remote news.now taken) }
        ensures answer { TakeAnswers self.old.now number taken news.now result self.new.now }
        ensures settled { self.new.settled ≡ self.old.settled }
        ensures listing { self.new.listing ≡ self.old.listing }
    {
        if !self.flights.is_started(number) {
            return Err(TakeFault::NoSuchOp);
        }
        match self.remote.hear(alloc, news) {
            Ok(()) => {
                self.flights.take(number, taken);
                Ok(())
            }
            Err(_) => Err(TakeFault::Memory),
        }
    }

    /// An operation that was taken ends. It takes no memory; for an adoption `edits` needs the room that its `reserve`
    /// makes.
    pub fn done(&mut self, number: u64, edits: &mut Edits) -> DoneReply
        requires { 0 < edits.old.spare }
        ensures done { IsDone number self.old.now edits.old.now result self.new.now edits.new.now }
        ensures settled { self.new.settled ≡ self.old.settled }
        ensures listing { self.new.listing ≡ self.old.listing }
        ensures edits_settled { edits.new.settled ≡ edits.old.settled }
    {
        match self.flights.taken(number) {
            None => DoneReply::NoSuchOp,
            Some(Taken::Refused(refusal)) => self.drop_op(number, Reason::Server(refusal)),
            Some(Taken::Accepted(rev)) => self.end_commit(number, rev),
            Some(Taken::Folder(outcome)) => self.end_in_folder(number, outcome, edits),
        }
    }

    /// An operation ends without a change.
    fn drop_op(&mut self, number: u64, reason: Reason) -> DoneReply
        requires { StandsAt number IsTaken self.old.now.flights }
        ensures reply { result ≡ DoneReply.Dropped reason }
        ensures now { self.new.now ≡ record self.old.now { flights = without number self.old.now.flights } }
        ensures settled { self.new.settled ≡ self.old.settled }
        ensures listing { self.new.listing ≡ self.old.listing }
    {
        self.flights.finish(number);
        DoneReply::Dropped(reason)
    }

    /// A commit that was accepted ends.
    fn end_commit(&mut self, number: u64, rev: u64) -> DoneReply
        requires { taken_of (flight_of number self.old.now.flights) ≡ Some (Taken.Accepted rev) }
        ensures done { (e : Recorded) → IsDone number self.old.now e result self.new.now e }
        ensures settled { self.new.settled ≡ self.old.settled }
        ensures listing { self.new.listing ≡ self.old.listing }
    {
        let Some(op) = self.flights.op(number) else {
            unreachable!()
        };
        self.remote.catch_up(rev);
        let landed = land_commit(&mut self.synced, op);
        trees_are_sound(&self.local, &self.synced);
        self.flights.finish(number);
        applied_or_stale(landed)
    }

    /// An operation that the folder answered ends.
    fn end_in_folder(&mut self, number: u64, outcome: Outcome, edits: &mut Edits) -> DoneReply
        requires taken { taken_of (flight_of number self.old.now.flights) ≡ Some (Taken.Folder outcome) }
        requires room { 0 < edits.old.spare }
        ensures done { IsDone number self.old.now edits.old.now result self.new.now edits.new.now }
        ensures settled { self.new.settled ≡ self.old.settled }
        ensures listing { self.new.listing ≡ self.old.listing }
        ensures edits_settled { edits.new.settled ≡ edits.old.settled }
    {
        if !outcome.is_success() {
            return self.drop_op(number, Reason::Folder(outcome));
        }
        let Some(op) = self.flights.op(number) else {
            unreachable!()
        };
        let landed = land_in_folder(&mut self.local, &mut self.synced, op, outcome, edits);
        trees_are_sound(&self.local, &self.synced);
        if landed {
            self.counts.changes += 1;
        }
        self.flights.finish(number);
        applied_or_stale(landed)
    }

    /// Everything in flight is forgotten, with the entries that were heard of and not applied, and the listing.
    pub fn restart(&mut self)
        ensures now { self.new.now ≡ after_restart self.old.now }
        ensures settled { self.new.settled ≡ self.old.settled }
        ensures listing { self.new.listing ≡ let_go self.old.listing }
    {
        self.flights.clear();
        self.remote.forget();
        self.listing.let_go();
    }
}

/// Calls that may let a tree go.
impl<T: TreeLike + Drop> Client<T> {
    /// What there is now is what `back` leads to. It takes no memory.
    pub fn settle(&mut self)
        ensures now { self.new.now ≡ self.old.now }
        ensures settled { self.new.settled ≡ self.old.now }
        ensures listing { self.new.listing ≡ settled_now self.old.listing }
    {
        self.remote.settle();
        settle_trees(&mut self.local, &mut self.synced, self.flights.len());
        self.flights.settle();
        self.settled_counts = self.counts;
        self.listing.settle();
    }

    /// The client becomes what it was at the last `settle`, or when it was made. It takes no memory, and a Done after it
    /// takes none either.
    pub fn back(&mut self)
        ensures now { self.new.now ≡ self.old.settled }
        ensures settled { self.new.settled ≡ self.old.settled }
        ensures listing { self.new.listing ≡ gone_back self.old.listing }
    {
        self.remote.back();
        self.local.back();
        self.synced.back();
        self.flights.back();
        self.counts = self.settled_counts;
        self.listing.back();
    }
}

/// What is always so of the folder's tree and of Synced.
pub(crate) fn trees_are_sound<T: TreeLike>(local: &Local<T>, synced: &UndoTree<T>)
    ensures local { IsLocal local.now.now }
    ensures synced { WellFormed synced.now.now }
{
    let _local = local.tree();
    let _synced = synced.tree();
}

fn applied_or_stale(landed: bool) -> DoneReply
    ensures { MatchBool landed (result ≡ DoneReply.Applied) (result ≡ DoneReply.Stale) }
{
    if landed {
        DoneReply::Applied
    } else {
        DoneReply::Stale
    }
}

/// Settles what the folder and the server agree on. While nothing flies, nothing needs to lie by.
fn settle_trees<T: TreeLike + Drop>(local: &mut Local<T>, synced: &mut UndoTree<T>, flying: u64)
    ensures local { SettlesLocal flying local.old local.new }
    ensures synced { SettlesSynced flying synced.old synced.new }
{
    if flying == 0 {
        local.settle_and_forget();
        synced.settle();
        synced.forget_laid();
    } else {
        local.settle();
        synced.settle();
    }
}
