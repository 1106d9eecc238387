use crate::mem_trial::{Call, HELLO, ONE, Row, Trial};
use crate::user_trial::{Edit, Notice};
use crate::{Key, Outcome, UserReply};
use std::process::Abort;

const A: Row = (3, (0, b"a"), Some(HELLO), false);

const D: Row = (1, (0, b"d"), None, false);

const E: Row = (4, (1, b"e"), None, false);

const F: Row = (2, (1, b"f"), Some(ONE), false);

const G: Row = (5, (4, b"g"), Some(ONE), false);

/// Each edit is answered so.
fn are_answered(rt: &impl Abort, trial: &mut Trial, reply: UserReply, edits: &[Edit]) {
    for (i, edit) in edits.iter().enumerate() {
        assert_eq!(rt; trial.user(rt, *edit), reply, "edit {i}");
    }
}

/// The user makes the folders `d` and `d/e` and the files `a`, `d/f` and `d/e/g`.
fn filled(rt: &impl Abort, trial: &mut Trial) {
    let edits = [
        Edit::Mkdir(&["d"]),
        Edit::Write(&["d", "f"], ONE),
        Edit::Write(&["a"], HELLO),
        Edit::Mkdir(&["d", "e"]),
        Edit::Write(&["d", "e", "g"], ONE),
    ];
    are_answered(rt, trial, UserReply::Ok, &edits);
}

/// The same, settled, with nothing pending.
fn settled(rt: &impl Abort, trial: &mut Trial) {
    filled(rt, trial);
    trial.lists(rt, &[A, D, E, G, F]);
    trial.settle();
}

#[test]
fn what_a_user_makes_is_told(rt: HostRuntime) {
    let mut trial = Trial::new(rt.alloc());
    filled(&rt, &mut trial);
    trial.holds(&rt, &[A, D, E, G, F]);
    trial.tells(&rt, &[D, F, A, E, G].map(|row| Notice::Made(row)));
}

#[test]
fn what_a_user_changes_is_told(rt: HostRuntime) {
    let mut trial = Trial::new(rt.alloc());
    settled(&rt, &mut trial);
    let edits = [
        Edit::Bit(&["a"], true),
        Edit::Write(&["a"], ONE),
        Edit::Move(&["d", "e"], &["b"]),
    ];
    are_answered(&rt, &mut trial, UserReply::Ok, &edits);
    let a = (3, (0, b"a".as_slice()), Some(ONE), true);
    let b = (4, (0, b"b".as_slice()), None, false);
    trial.holds(&rt, &[a, b, G, D, F]);
    let told = [
        Notice::Bit(3, true),
        Notice::Written(3, ONE),
        Notice::Moved(4, (0, b"b")),
    ];
    trial.tells(&rt, &told);
}

#[test]
fn a_removal_takes_all_below_the_last_of_the_listing_first(rt: HostRuntime) {
    let mut trial = Trial::new(rt.alloc());
    settled(&rt, &mut trial);
    are_answered(&rt, &mut trial, UserReply::Ok, &[Edit::Remove(&["d"])]);
    trial.holds(&rt, &[A]);
    trial.tells(&rt, &[2, 5, 4, 1].map(|key| Notice::Removed(key)));
    are_answered(&rt, &mut trial, UserReply::Ok, &[Edit::Mkdir(&["d"])]);
    trial.tells(&rt, &[Notice::Made((6, (0, b"d"), None, false))]);
}

/// Each edit of the settled folder is answered so, changes nothing and is told to nobody.
fn are_refused(rt: &impl Abort, trial: &mut Trial, reply: UserReply, edits: &[Edit]) {
    settled(rt, trial);
    are_answered(rt, trial, reply, edits);
    trial.holds(rt, &[A, D, E, G, F]);
    trial.tells(rt, &[]);
}

#[test]
fn nothing_is_there(rt: HostRuntime) {
    let mut trial = Trial::new(rt.alloc());
    let edits = [
        Edit::Move(&["x"], &["x", "y"]),
        Edit::Move(&["x"], &["d"]),
        Edit::Remove(&["d", "x"]),
        Edit::Remove(&["a", "x"]),
        Edit::Bit(&["x", "f"], true),
    ];
    are_refused(&rt, &mut trial, UserReply::NoSuch, &edits);
}

#[test]
fn the_path_leads_to_no_folder(rt: HostRuntime) {
    let mut trial = Trial::new(rt.alloc());
    let edits = [
        Edit::Mkdir(&["x", "y"]),
        Edit::Mkdir(&["a", "y"]),
        Edit::Write(&["x", "y"], ONE),
        Edit::Write(&["d", "f", "y"], ONE),
        Edit::Move(&["d"], &["a", "d"]),
    ];
    are_refused(&rt, &mut trial, UserReply::NoParent, &edits);
}

#[test]
fn a_folder_is_no_file(rt: HostRuntime) {
    let mut trial = Trial::new(rt.alloc());
    let edits = [Edit::Write(&["d"], ONE), Edit::Bit(&["d", "e"], true)];
    are_refused(&rt, &mut trial, UserReply::Kind, &edits);
}

#[test]
fn the_place_is_somebodys(rt: HostRuntime) {
    let mut trial = Trial::new(rt.alloc());
    let edits = [
        Edit::Mkdir(&["d"]),
        Edit::Mkdir(&["a"]),
        Edit::Move(&["a"], &["d", "f"]),
        Edit::Move(&["a"], &["a"]),
        Edit::Move(&["d"], &["d", "e"]),
    ];
    are_refused(&rt, &mut trial, UserReply::Taken, &edits);
}

#[test]
fn nothing_comes_below_itself(rt: HostRuntime) {
    let mut trial = Trial::new(rt.alloc());
    let edits = [
        Edit::Move(&["d"], &["d", "x"]),
        Edit::Move(&["d"], &["d", "e", "x"]),
    ];
    are_refused(&rt, &mut trial, UserReply::Cycle, &edits);
}

#[test]
fn back_takes_what_is_told_back(rt: HostRuntime) {
    let mut trial = Trial::new(rt.alloc());
    filled(&rt, &mut trial);
    trial.settle();
    for _ in 0..2u8 {
        trial.tells(&rt, &[D, F, A, E, G].map(|row| Notice::Made(row)));
        are_answered(&rt, &mut trial, UserReply::Ok, &[Edit::Remove(&["d"])]);
        trial.back();
        trial.holds(&rt, &[A, D, E, G, F]);
    }
}

#[test]
fn a_listing_drops_what_is_pending_and_a_call_does_not(rt: HostRuntime) {
    let mut trial = Trial::new(rt.alloc());
    are_answered(&rt, &mut trial, UserReply::Ok, &[Edit::Mkdir(&["d"])]);
    let made = trial.call(&rt, Call::WriteNew((1, b"f"), ONE, false));
    assert_eq!(&rt; made, Outcome::Made(Key(2)));
    trial.tells(&rt, &[Notice::Made(D)]);
    are_answered(&rt, &mut trial, UserReply::Ok, &[Edit::Remove(&["d", "f"])]);
    trial.lists(&rt, &[D]);
    trial.tells(&rt, &[]);
}

#[test]
fn a_users_edit_is_no_call_that_fails(rt: HostRuntime) {
    let mut trial = Trial::new(rt.alloc());
    trial.fail_at(&rt, 1);
    are_answered(&rt, &mut trial, UserReply::Ok, &[Edit::Mkdir(&["d"])]);
    trial.holds(&rt, &[D]);
    assert_eq!(&rt; trial.call(&rt, Call::MakeDir((1, b"e"))), Outcome::Failed);
}
