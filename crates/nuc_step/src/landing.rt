ghost use Rattle.std.specs.Prelude.{◌≡◌, ◌<◌, ◌++◌, ℕ, MatchBool, None, Some, IsTrue, false, option_copied};
ghost use Rattle.std.specs.FinMap as map;
ghost use Rattle.std.specs.FinMap.{get};
ghost use Rattle.nuc_base.specs.Changes.{IsLegal, changed};
ghost use Rattle.nuc_base.specs.Legal.{LegalCut};
ghost use Rattle.nuc_base.specs.Ready.{LegalInTurn};
ghost use Rattle.nuc_base.specs.Trees.{WellFormed};
ghost use Rattle.nuc_class.specs.Effects as effects;
ghost use Rattle.nuc_edits.specs.Edits.{same_hash};
ghost use Rattle.nuc_folder.specs.Outcome.{is_success};
ghost use Rattle.nuc_replica.specs.Local.{LocalState};
ghost use Rattle.nuc_step.specs.Sound.{ChangedOne, ChangedSynced, FitsOutcome, IsLaid, MayFly};
ghost use Rattle.nuc_step.specs.Steps.{KeyIsFree, LocalReady, OtherIsNew, PutsBelow, SyncedReady, adopted_by, is_split, local_after, local_changes, split_changes};

use nuc_base::{Change, Hashes, Node, NodeId, TreeLike};
use nuc_class::{Op, Verb, is_legal_in, value_eq};
use nuc_edits::Edits;
use nuc_folder::Outcome;
use nuc_observe::Keys;
use nuc_replica::Local;
use nuc_undo::UndoTree;

/// Writes in Synced what a commit was planned to write, where Synced is as it was at the plan. Whether it was.
pub(crate) fn land_commit<T: TreeLike>(synced: &mut UndoTree<T>, op: &Op) -> bool
    requires may { MayFly op.now }
    requires room { 0 < synced.old.spare }
    requires laid { IsLaid synced.old.laid op.now.number op.now.synced }
    ensures landed { MatchBool result (SyncedReady synced.old.now op.now × (synced.new.now ≡ changed synced.old.now op.now.id.0 op.now.synced)) (¬ (SyncedReady synced.old.now op.now) × (synced.new.now ≡ synced.old.now)) }
    ensures changed { ChangedSynced op.now.number synced.old synced.new }
{
    if !is_synced_ready(synced.tree(), op) {
        return false;
    }
    write_synced(synced, op);
    true
}

/// Writes in Local and Synced what was made in the folder, where both are as they were at the plan. Whether it was.
pub(crate) fn land_in_folder<T: TreeLike>(
    local: &mut Local<T>,
    synced: &mut UndoTree<T>,
    op: &Op,
    outcome: Outcome,
    edits: &mut Edits,
) -> bool
    requires may { MayFly op.now }
    requires outcome { FitsOutcome op.now outcome }
    requires success { IsTrue (is_success outcome) }
    requires local_room { 1 < local.old.spare }
    requires synced_room { 0 < synced.old.spare }
    requires local_laid { IsLaid local.old.laid op.now.number op.now.local }
    requires synced_laid { IsLaid synced.old.laid op.now.number op.now.synced }
    requires adoption { 0 < edits.old.spare }
    ensures landed { MatchBool result (LocalReady local.old.now op.now outcome × SyncedReady synced.old.now op.now) (¬ (LocalReady local.old.now op.now outcome × SyncedReady synced.old.now op.now)) }
    ensures local { MatchBool result (local.new.now ≡ local_after op.now outcome local.old.now) (local.new.now ≡ local.old.now) }
    ensures synced { MatchBool result (synced.new.now ≡ changed synced.old.now op.now.id.0 op.now.synced) (synced.new.now ≡ synced.old.now) }
    ensures edits { MatchBool result (edits.new.now ≡ record edits.old.now { adoptions = edits.old.now.adoptions ++ adopted_by (same_hash edits.old.now.edits) op.now.old_local op.now.local }) (edits.new.now ≡ edits.old.now) }
    ensures local_changed { ChangedOne op.now.number local.old local.new }
    ensures synced_changed { ChangedSynced op.now.number synced.old synced.new }
    ensures edits_settled { edits.new.settled ≡ edits.old.settled }
{
    if !is_local_ready(local.tree(), local.keys(), op, outcome)
        || !is_synced_ready(synced.tree(), op)
    {
        return false;
    }
    adopt(edits, op.old_local.as_ref(), &op.local);
    write_local(local, op, outcome);
    write_synced(synced, op);
    true
}

fn is_synced_ready<T: TreeLike>(synced: &T, op: &Op) -> bool
    requires form { WellFormed (T.nodes synced.now) }
    requires may { MayFly op.now }
    ensures { MatchBool result (SyncedReady (T.nodes synced.now) op.now) (¬ (SyncedReady (T.nodes synced.now) op.now)) }
{
    value_eq(synced.get(op.id), op.old_synced.as_ref()) && is_legal_in(synced, op.id, &op.synced)
}

fn is_local_ready<T: TreeLike>(local: &T, keys: &Keys, op: &Op, outcome: Outcome) -> bool
    requires form { WellFormed (T.nodes local.now) }
    requires may { MayFly op.now }
    ensures { let l : LocalState = record { tree = T.nodes local.now; keys = keys.now.now } in MatchBool result (LocalReady l op.now outcome) (¬ (LocalReady l op.now outcome)) }
{
    value_eq(local.get(op.id), op.old_local.as_ref())
        && are_legal(local, op)
        && is_key_free(keys, outcome)
}

/// Whether the changes of Local are legal, one after the other.
fn are_legal<T: TreeLike>(local: &T, op: &Op) -> bool
    requires form { WellFormed (T.nodes local.now) }
    requires may { MayFly op.now }
    ensures { MatchBool result (OtherIsNew (is_split op.now.verb) (T.nodes local.now) op.now.other.0 × LegalInTurn (T.nodes local.now) (local_changes op.now)) (¬ (OtherIsNew (is_split op.now.verb) (T.nodes local.now) op.now.other.0 × LegalInTurn (T.nodes local.now) (local_changes op.now))) }
{
    if op.verb == Verb::Split {
        can_split(local, op)
    } else {
        is_legal_in(local, op.id, &op.local)
    }
}

/// Whether the other identity may come, and then the operation's own go.
fn can_split<T: TreeLike>(local: &T, op: &Op) -> bool
    requires form { WellFormed (T.nodes local.now) }
    requires may { MayFly op.now }
    requires split { IsTrue (is_split op.now.verb) }
    ensures { MatchBool result ((get (T.nodes local.now) op.now.other.0 ≡ None) × LegalInTurn (T.nodes local.now) (split_changes op.now)) (¬ ((get (T.nodes local.now) op.now.other.0 ≡ None) × LegalInTurn (T.nodes local.now) (split_changes op.now))) }
{
    local.get(op.other).is_none() && is_legal_in(local, op.other, &op.local) && can_go(local, op)
}

/// Whether the operation's own identity may go once the other, which isn't there, has come.
fn can_go<T: TreeLike>(local: &T, op: &Op) -> bool
    requires form { WellFormed (T.nodes local.now) }
    requires may { MayFly op.now }
    requires split { IsTrue (is_split op.now.verb) }
    requires absent { get (T.nodes local.now) op.now.other.0 ≡ None }
    ensures { MatchBool result (LegalCut (changed (T.nodes local.now) op.now.other.0 op.now.local) op.now.id.0) (¬ (LegalCut (changed (T.nodes local.now) op.now.other.0 op.now.local) op.now.id.0)) }
{
    is_legal_in(local, op.id, &Change::Cut) && !is_child_of(&op.local, op.id)
}

/// Whether a change puts a node below this identity.
fn is_child_of(change: &Change, id: NodeId) -> bool
    ensures { MatchBool result (PutsBelow change.now id.0) (¬ (PutsBelow change.now id.0)) }
{
    match change {
        Change::Put(node) => node.place.parent == id,
        Change::Keep | Change::Cut => false,
    }
}

fn is_key_free(keys: &Keys, outcome: Outcome) -> bool
    ensures { MatchBool result (KeyIsFree keys.now.now outcome) (¬ (KeyIsFree keys.now.now outcome)) }
{
    match outcome {
        Outcome::Made(key) => keys.id_of(key).is_none(),
        _ => true,
    }
}

/// Adopts the version of a node of Local that gives way to another node into that one's, where both have the same content.
pub(crate) fn adopt(edits: &mut Edits, old: Option<&Node>, new: &Change)
    requires { 0 < edits.old.spare }
    ensures now { edits.new.now ≡ record edits.old.now { adoptions = edits.old.now.adoptions ++ adopted_by (same_hash edits.old.now.edits) (option_copied old.entry) new.now } }
    ensures settled { edits.new.settled ≡ edits.old.settled }
{
    let (Some(old), Change::Put(new)) = (old, new) else {
        return;
    };
    if adopts(old, new, edits) {
        let Ok(()) = edits.adopt(old.ver, new.ver) else {
            unreachable!()
        };
    }
}

/// Whether a node that comes in place of another has another version of the same content.
fn adopts<H: Hashes>(old: &Node, new: &Node, h: &H) -> bool
    ensures { result ≡ effects.adopts (H.same h.now) old.now new.now }
{
    old.ver != new.ver && h.same(old.ver, new.ver)
}

fn write_synced<T: TreeLike>(synced: &mut UndoTree<T>, op: &Op)
    requires may { MayFly op.now }
    requires legal { IsLegal synced.old.now op.now.id.0 op.now.synced }
    requires room { 0 < synced.old.spare }
    requires laid { IsLaid synced.old.laid op.now.number op.now.synced }
    ensures now { synced.new.now ≡ changed synced.old.now op.now.id.0 op.now.synced }
    ensures changed { ChangedSynced op.now.number synced.old synced.new }
{
    match &op.synced {
        Change::Keep => {}
        Change::Put(_) => synced.put_laid(op.number, op.id),
        Change::Cut => cut_synced(synced, op.id),
    }
}

fn cut_synced<T: TreeLike>(synced: &mut UndoTree<T>, id: NodeId)
    requires legal { LegalCut synced.old.now id.0 }
    requires room { 0 < synced.old.spare }
    ensures now { synced.new.now ≡ map.remove synced.old.now id.0 }
    ensures changed { (n : ℕ) → ChangedSynced n synced.old synced.new }
{
    let Ok(()) = synced.cut(id) else {
        unreachable!()
    };
}

fn write_local<T: TreeLike>(local: &mut Local<T>, op: &Op, outcome: Outcome)
    requires may { MayFly op.now }
    requires outcome { FitsOutcome op.now outcome }
    requires success { IsTrue (is_success outcome) }
    requires ready { LocalReady local.old.now op.now outcome }
    requires room { 1 < local.old.spare }
    requires laid { IsLaid local.old.laid op.now.number op.now.local }
    ensures now { local.new.now ≡ local_after op.now outcome local.old.now }
    ensures changed { ChangedOne op.now.number local.old local.new }
{
    if op.verb == Verb::Split {
        local.hand_over(op.number, op.id, op.other);
    } else {
        write_one(local, op, outcome);
    }
}

/// Writes the change of one identity in Local.
fn write_one<T: TreeLike>(local: &mut Local<T>, op: &Op, outcome: Outcome)
    requires may { MayFly op.now }
    requires one { is_split op.now.verb ≡ false }
    requires outcome { FitsOutcome op.now outcome }
    requires success { IsTrue (is_success outcome) }
    requires ready { LocalReady local.old.now op.now outcome }
    requires room { 0 < local.old.spare }
    requires laid { IsLaid local.old.laid op.now.number op.now.local }
    ensures now { local.new.now ≡ local_after op.now outcome local.old.now }
    ensures changed { ChangedOne op.now.number local.old local.new }
{
    match (&op.local, outcome) {
        (Change::Keep, _) => {}
        (Change::Put(_), Outcome::Made(key)) => local.add_laid(op.number, op.id, key),
        (Change::Put(_), _) => local.put_laid(op.number, op.id),
        (Change::Cut, _) => local.cut(op.id),
    }
}
