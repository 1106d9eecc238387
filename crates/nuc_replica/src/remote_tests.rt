use crate::trial::{Shape, Trial};
use nuc_base::{NodeId, TreeLike};
use std::process::Abort;

/// The folder `d`, the file `d/f` and the file `g`; then `d/f` becomes `f` and is written, and `d/h` comes.
const FIVE: [(u64, Shape); 5] = [
    (1, (0, b"d", 0)),
    (2, (1, b"f", 1)),
    (3, (0, b"g", 2)),
    (2, (0, b"f", 3)),
    (4, (1, b"h", 4)),
];

fn with_five_entries(rt: &impl Abort, trial: &mut Trial) {
    for (id, shape) in FIVE {
        trial.put(rt, id, shape);
    }
}

/// The remote is at this revision, and knows of entries up to that one. The revisions are those of 1, 2 and so on.
fn stands(rt: &impl Abort, trial: &Trial, cursor: u64, known: u64, revisions: &[u64]) {
    let remote = trial.remote();
    assert_eq!(rt; remote.cursor(), cursor);
    assert_eq!(rt; remote.known(), known);
    assert_eq!(rt; remote.tree().len(), revisions.len() as u64);
    for (i, &revision) in revisions.iter().enumerate() {
        assert_eq!(rt; remote.revision(NodeId(i as u64 + 1)), revision);
    }
    assert_eq!(rt; remote.revision(NodeId(9)), 0);
}

/// The second identity has this parent and this version.
fn has_file(rt: &impl Abort, trial: &Trial, parent: u64, ver: u64) {
    let file = trial.remote().tree().get(NodeId(2));
    assert!(rt; file.is_some_and(|f| f.place.parent.0 == parent && f.ver.0 == ver));
}

#[test]
fn moves_on_by_pages(rt: HostRuntime) {
    let mut trial = Trial::new(rt.alloc());
    with_five_entries(&rt, &mut trial);
    trial.pull(&rt, 0);
    stands(&rt, &trial, 0, 0, &[]);
    trial.pull(&rt, 3);
    stands(&rt, &trial, 3, 3, &[1, 2, 3]);
    has_file(&rt, &trial, 1, 1);
    trial.pull(&rt, 2);
    stands(&rt, &trial, 5, 5, &[1, 4, 3, 5]);
    has_file(&rt, &trial, 0, 3);
}

#[test]
fn hears_first_and_applies_later(rt: HostRuntime) {
    let mut trial = Trial::new(rt.alloc());
    with_five_entries(&rt, &mut trial);
    trial.hear(&rt, 3);
    trial.hear(&rt, 2);
    stands(&rt, &trial, 0, 3, &[]);
    trial.catch_up(&rt, 2);
    stands(&rt, &trial, 2, 3, &[1, 2]);
    trial.catch_up(&rt, 1);
    trial.hear(&rt, 2);
    stands(&rt, &trial, 2, 4, &[1, 2]);
    trial.catch_up(&rt, 4);
    stands(&rt, &trial, 4, 4, &[1, 4, 3]);
}

#[test]
fn a_page_overtakes_what_was_heard(rt: HostRuntime) {
    let mut trial = Trial::new(rt.alloc());
    with_five_entries(&rt, &mut trial);
    trial.hear(&rt, 4);
    trial.pull(&rt, 3);
    stands(&rt, &trial, 3, 4, &[1, 2, 3]);
    trial.pull(&rt, 2);
    stands(&rt, &trial, 5, 5, &[1, 4, 3, 5]);
}

#[test]
fn forgets_what_it_has_heard(rt: HostRuntime) {
    let mut trial = Trial::new(rt.alloc());
    with_five_entries(&rt, &mut trial);
    trial.hear(&rt, 4);
    trial.catch_up(&rt, 1);
    trial.forget();
    stands(&rt, &trial, 1, 1, &[1]);
    trial.hear(&rt, 1);
    stands(&rt, &trial, 1, 2, &[1]);
}

#[test]
fn goes_back_to_what_it_had_heard(rt: HostRuntime) {
    let mut trial = Trial::new(rt.alloc());
    with_five_entries(&rt, &mut trial);
    trial.hear(&rt, 4);
    trial.catch_up(&rt, 2);
    trial.settle();
    for _ in 0..2u8 {
        trial.catch_up(&rt, 4);
        stands(&rt, &trial, 4, 4, &[1, 4, 3]);
        trial.back();
        stands(&rt, &trial, 2, 4, &[1, 2]);
    }
    trial.forget();
    trial.pull(&rt, 3);
    stands(&rt, &trial, 5, 5, &[1, 4, 3, 5]);
    trial.back();
    stands(&rt, &trial, 2, 4, &[1, 2]);
}
