use crate::trial::{Draft, Shape, Trial, down, local, up};
use crate::{DoneReply, FlyReply, Reason, TakeFault};
use nuc_base::{NodeId, TreeLike};
use nuc_flights::Taken;
use nuc_folder::{Key, Outcome};
use nuc_hash::Digest;
use nuc_server::Refusal;
use nuc_tree::Tree;
use std::process::Abort;

/// The client's cursor, how many operations are in flight, and how often Local has changed.
fn stands(rt: &impl Abort, trial: &Trial, cursor: u64, flying: u64, changes: u64) {
    let client = trial.client();
    assert_eq!(rt; client.cursor(), cursor);
    assert_eq!(rt; client.flying(), flying);
    assert_eq!(rt; client.changes(), changes);
}

/// The tree has these folders, with the identities 1, 2 and so on.
fn has(rt: &impl Abort, tree: &Tree, shapes: &[Shape]) {
    assert_eq!(rt; tree.len(), shapes.len() as u64);
    for (i, &(parent, name)) in shapes.iter().enumerate() {
        let node = tree.get(NodeId(i as u64 + 1));
        assert!(rt;
            node.is_some_and(|n| n.place.parent.0 == parent && n.place.name.bytes() == name)
        );
    }
}

/// Puts these in flight, and begins those with these numbers.
fn begin(rt: &impl Abort, trial: &mut Trial, drafts: &[Draft], numbers: &[u64]) {
    assert!(rt; trial.fly(rt, drafts) == FlyReply::Flying);
    for number in numbers {
        assert!(rt; trial.start(*number));
    }
}

/// An operation that has begun is taken so and ends so.
fn end(rt: &impl Abort, trial: &mut Trial, number: u64, taken: Taken, reply: DoneReply) {
    assert!(rt; trial.take(rt, number, taken, 0) == Ok(()));
    assert_eq!(rt; trial.done(rt, number), reply);
}

/// The folder carries out an operation alone, under this number. What is new gets the identity for its key.
fn carry_out(rt: &impl Abort, trial: &mut Trial, draft: Draft, number: u64, outcome: Outcome) {
    begin(rt, trial, &[draft], &[number]);
    end(
        rt,
        trial,
        number,
        Taken::Folder(outcome),
        DoneReply::Applied,
    );
}

const A: Shape = (0, b"A");

const Y: Shape = (0, b"Y");

const X_IN_Y: Shape = (2, b"X");

const Z: Shape = (0, b"Z");

const X: Shape = (0, b"X");

const Y_IN_A: Shape = (1, b"Y");

const X_IN_Z: Shape = (4, b"X");

const A_IN_X: Shape = (3, b"A");

/// The server has the folders `A`, `Y`, `Y/X` and `Z`, and all of them come to the client.
fn with_four_folders(rt: &impl Abort, trial: &mut Trial) {
    for (id, shape) in [(1, A), (2, Y), (3, X_IN_Y), (4, Z)] {
        trial.put(rt, id, shape);
        trial.pull(rt, 1);
        carry_out(rt, trial, down(id, None, shape), id, Outcome::Made(Key(id)));
    }
}

/// Then the server moves `A` into `X` and that into `Z`, and the user moves `X` to the root and `Y` into `A`.
fn with_moves_that_meet(rt: &impl Abort, trial: &mut Trial) {
    with_four_folders(rt, trial);
    trial.put(rt, 3, X_IN_Z);
    trial.put(rt, 1, A_IN_X);
    trial.pull(rt, 2);
    carry_out(rt, trial, local(3, Some(X_IN_Y), X), 5, Outcome::Ok);
    carry_out(rt, trial, local(2, Some(Y), Y_IN_A), 6, Outcome::Ok);
}

/// The server's move of `A` comes to the folder while the user's of `Y` goes to the server, and each succeeds.
fn with_both_taken(rt: &impl Abort, trial: &mut Trial) {
    with_moves_that_meet(rt, trial);
    let drafts = [down(1, Some(A), A_IN_X), up(2, Some(Y), Y_IN_A)];
    begin(rt, trial, &drafts, &[7, 8]);
    trial.put(rt, 2, Y_IN_A);
    assert!(rt; trial.take(rt, 7, Taken::Folder(Outcome::Ok), 0) == Ok(()));
    assert!(rt; trial.take(rt, 8, Taken::Accepted(7), 1) == Ok(()));
}

#[test]
fn of_two_moves_that_would_close_a_ring_the_second_is_stale(rt: HostRuntime) {
    let mut trial = Trial::new(rt.alloc());
    with_both_taken(&rt, &mut trial);
    assert_eq!(&rt; trial.done(&rt, 7), DoneReply::Applied);
    assert_eq!(&rt; trial.done(&rt, 8), DoneReply::Stale);
    stands(&rt, &trial, 7, 0, 7);
    has(&rt, trial.client().remote(), &[A_IN_X, Y_IN_A, X_IN_Z, Z]);
    has(&rt, trial.client().local(), &[A_IN_X, Y_IN_A, X, Z]);
    has(&rt, trial.client().synced(), &[A_IN_X, Y, X_IN_Y, Z]);
}

#[test]
fn the_other_is_stale_where_they_end_in_the_other_order(rt: HostRuntime) {
    let mut trial = Trial::new(rt.alloc());
    with_both_taken(&rt, &mut trial);
    assert_eq!(&rt; trial.done(&rt, 8), DoneReply::Applied);
    assert_eq!(&rt; trial.done(&rt, 7), DoneReply::Stale);
    stands(&rt, &trial, 7, 0, 6);
    has(&rt, trial.client().remote(), &[A_IN_X, Y_IN_A, X_IN_Z, Z]);
    has(&rt, trial.client().local(), &[A, Y_IN_A, X, Z]);
    has(&rt, trial.client().synced(), &[A, Y_IN_A, X_IN_Y, Z]);
}

/// Each operation under its number is taken so, dropped for this reason, and known no more.
fn are_dropped(rt: &impl Abort, trial: &mut Trial, ends: &[(Taken, Reason)]) {
    for (i, &(taken, reason)) in ends.iter().enumerate() {
        let number = i as u64 + 1;
        begin(rt, trial, &[down(1, None, A)], &[number]);
        end(rt, trial, number, taken, DoneReply::Dropped(reason));
        assert_eq!(rt; trial.done(rt, number), DoneReply::NoSuchOp);
    }
}

#[test]
fn what_the_folder_did_not_do_is_dropped(rt: HostRuntime) {
    let mut trial = Trial::new(rt.alloc());
    let ends = [
        Outcome::Changed,
        Outcome::Taken,
        Outcome::NotEmpty,
        Outcome::Failed,
    ]
    .map(|outcome| (Taken::Folder(outcome), Reason::Folder(outcome)));
    are_dropped(&rt, &mut trial, &ends);
    stands(&rt, &trial, 0, 0, 0);
    has(&rt, trial.client().local(), &[]);
    has(&rt, trial.client().synced(), &[]);
}

#[test]
fn what_the_server_refused_is_dropped(rt: HostRuntime) {
    let mut trial = Trial::new(rt.alloc());
    let ends = [
        Refusal::Stale(3),
        Refusal::KindChanged,
        Refusal::NoParent,
        Refusal::Taken(NodeId(2)),
        Refusal::Cycle,
        Refusal::NotEmpty,
        Refusal::NoBlock(Digest([7; 32])),
    ]
    .map(|refusal| (Taken::Refused(refusal), Reason::Server(refusal)));
    are_dropped(&rt, &mut trial, &ends);
    stands(&rt, &trial, 0, 0, 0);
    has(&rt, trial.client().remote(), &[]);
    has(&rt, trial.client().synced(), &[]);
}

#[test]
fn an_operation_goes_from_stage_to_stage(rt: HostRuntime) {
    let mut trial = Trial::new(rt.alloc());
    let refused = Taken::Refused(Refusal::NoParent);
    begin(&rt, &mut trial, &[up(1, None, A)], &[]);
    assert!(&rt; trial.fly(&rt, &[]) == FlyReply::Busy(1));
    assert!(&rt;
        trial
            .client()
            .in_flight(1)
            .is_some_and(|op| op.number == 1 && op.base == 0)
    );
    assert!(&rt; trial.client().in_flight(2).is_none() && !trial.start(2));
    assert!(&rt; trial.take(&rt, 1, refused, 0) == Err(TakeFault::NoSuchOp));
    assert!(&rt; trial.start(1) && !trial.start(1));
    assert_eq!(&rt; trial.done(&rt, 1), DoneReply::NoSuchOp);
}

/// The user makes `a` and `b`, and the server accepts both.
fn with_two_commits(rt: &impl Abort, trial: &mut Trial) {
    for (id, shape) in [(1, A), (2, Z)] {
        carry_out(
            rt,
            trial,
            local(id, None, shape),
            id,
            Outcome::Made(Key(id)),
        );
        trial.put(rt, id, shape);
    }
    begin(rt, trial, &[up(1, None, A), up(2, None, Z)], &[3, 4]);
    assert!(rt; trial.take(rt, 3, Taken::Accepted(1), 1) == Ok(()));
    assert!(rt; trial.take(rt, 4, Taken::Accepted(2), 2) == Ok(()));
}

#[test]
fn accepted_commits_end_in_the_other_order(rt: HostRuntime) {
    let mut trial = Trial::new(rt.alloc());
    with_two_commits(&rt, &mut trial);
    assert_eq!(&rt; trial.done(&rt, 4), DoneReply::Applied);
    stands(&rt, &trial, 2, 1, 2);
    has(&rt, trial.client().remote(), &[A, Z]);
    assert_eq!(&rt; trial.done(&rt, 3), DoneReply::Applied);
    stands(&rt, &trial, 2, 0, 2);
    has(&rt, trial.client().synced(), &[A, Z]);
    has(&rt, trial.client().local(), &[A, Z]);
}

#[test]
fn accepted_commits_end_in_their_order(rt: HostRuntime) {
    let mut trial = Trial::new(rt.alloc());
    with_two_commits(&rt, &mut trial);
    assert_eq!(&rt; trial.done(&rt, 3), DoneReply::Applied);
    stands(&rt, &trial, 1, 1, 2);
    has(&rt, trial.client().remote(), &[A]);
    assert_eq!(&rt; trial.done(&rt, 4), DoneReply::Applied);
    stands(&rt, &trial, 2, 0, 2);
    has(&rt, trial.client().synced(), &[A, Z]);
}

#[test]
fn a_restart_forgets_what_is_in_flight(rt: HostRuntime) {
    let mut trial = Trial::new(rt.alloc());
    with_two_commits(&rt, &mut trial);
    trial.restart();
    stands(&rt, &trial, 0, 0, 2);
    has(&rt, trial.client().remote(), &[]);
    assert_eq!(&rt; trial.done(&rt, 3), DoneReply::NoSuchOp);
    begin(&rt, &mut trial, &[up(1, None, A)], &[5]);
    stands(&rt, &trial, 0, 1, 2);
}

#[test]
fn a_done_is_applied_again_after_back(rt: HostRuntime) {
    let mut trial = Trial::new(rt.alloc());
    with_two_commits(&rt, &mut trial);
    trial.settle();
    for _ in 0..2u8 {
        stands(&rt, &trial, 0, 2, 2);
        has(&rt, trial.client().synced(), &[]);
        assert_eq!(&rt; trial.done(&rt, 4), DoneReply::Applied);
        stands(&rt, &trial, 2, 1, 2);
        trial.back();
    }
}

#[test]
fn a_move_from_the_server_keeps_its_key(rt: HostRuntime) {
    let mut trial = Trial::new(rt.alloc());
    with_four_folders(&rt, &mut trial);
    trial.put(&rt, 1, A_IN_X);
    trial.pull(&rt, 1);
    carry_out(&rt, &mut trial, down(1, Some(A), A_IN_X), 5, Outcome::Ok);
    stands(&rt, &trial, 5, 0, 5);
    let keys = trial.client().keys();
    assert!(&rt; keys.len() == 4 && keys.key_of(NodeId(1)) == Some(Key(1)));
}
