use crate::mem_trial::{Call, HELLO, ONE, Row, Text, Trial};
use crate::{Key, Listed, Outcome, ReadBack};
use std::process::Abort;

const A: Row = (3, (0, b"a"), Some(HELLO), true);

const D: Row = (1, (0, b"d"), None, false);

const E: Row = (4, (1, b"e"), None, false);

const F: Row = (2, (1, b"f"), Some(ONE), false);

/// A folder with the folders `d` and `d/e` and the files `a` and `d/f`.
fn filled(rt: &impl Abort, trial: &mut Trial) {
    let calls = [
        Call::MakeDir((0, b"d")),
        Call::WriteNew((1, b"f"), ONE, false),
        Call::WriteNew((0, b"a"), HELLO, true),
        Call::MakeDir((1, b"e")),
    ];
    for (i, call) in calls.iter().enumerate() {
        assert_eq!(rt; trial.call(rt, *call), Outcome::Made(Key(i as u64 + 1)));
    }
}

/// Each of the calls is answered so, and the filled folder holds what it held.
fn are_refused(rt: &impl Abort, trial: &mut Trial, answer: Outcome, calls: &[Call]) {
    for (i, call) in calls.iter().enumerate() {
        assert_eq!(rt; trial.call(rt, *call), answer, "call {i}");
        trial.holds(rt, &[A, D, E, F]);
    }
}

/// Each of the calls is answered `Ok`.
fn are_done(rt: &impl Abort, trial: &mut Trial, calls: &[Call]) {
    for (i, call) in calls.iter().enumerate() {
        assert_eq!(rt; trial.call(rt, *call), Outcome::Ok, "call {i}");
    }
}

#[test]
fn an_empty_folder_lists_nothing(rt: HostRuntime) {
    let mut trial = Trial::new(rt.alloc());
    trial.holds(&rt, &[]);
    trial.lists(&rt, &[]);
}

#[test]
fn a_listing_goes_by_names(rt: HostRuntime) {
    let mut trial = Trial::new(rt.alloc());
    filled(&rt, &mut trial);
    trial.lists(&rt, &[A, D, E, F]);
    trial.holds(&rt, &[A, D, E, F]);
}

#[test]
fn what_is_new_needs_a_folder_and_a_free_place(rt: HostRuntime) {
    let mut trial = Trial::new(rt.alloc());
    filled(&rt, &mut trial);
    let changed = [
        Call::MakeDir((9, b"x")),
        Call::MakeDir((2, b"x")),
        Call::WriteNew((9, b"x"), ONE, false),
        Call::WriteNew((3, b"a"), ONE, false),
    ];
    are_refused(&rt, &mut trial, Outcome::Changed, &changed);
    let taken = [
        Call::MakeDir((1, b"f")),
        Call::MakeDir((0, b"d")),
        Call::WriteNew((1, b"e"), ONE, false),
        Call::WriteNew((0, b"a"), ONE, false),
    ];
    are_refused(&rt, &mut trial, Outcome::Taken, &taken);
}

#[test]
fn replace_wants_the_hash_that_it_expects(rt: HostRuntime) {
    let mut trial = Trial::new(rt.alloc());
    filled(&rt, &mut trial);
    let changed = [
        Call::Replace(2, HELLO, ONE),
        Call::Replace(1, ONE, HELLO),
        Call::Replace(9, ONE, HELLO),
    ];
    are_refused(&rt, &mut trial, Outcome::Changed, &changed);
    are_done(&rt, &mut trial, &[Call::Replace(3, HELLO, ONE)]);
    trial.holds(&rt, &[(3, (0, b"a"), Some(ONE), true), D, E, F]);
}

#[test]
fn set_bit_wants_the_bit_that_it_expects(rt: HostRuntime) {
    let mut trial = Trial::new(rt.alloc());
    filled(&rt, &mut trial);
    let changed = [
        Call::SetBit(2, true, false),
        Call::SetBit(1, false, true),
        Call::SetBit(9, false, true),
    ];
    are_refused(&rt, &mut trial, Outcome::Changed, &changed);
    let done = [Call::SetBit(2, false, true), Call::SetBit(3, true, false)];
    are_done(&rt, &mut trial, &done);
    let a = (3, (0, b"a".as_slice()), Some(HELLO), false);
    let f = (2, (1, b"f".as_slice()), Some(ONE), true);
    trial.holds(&rt, &[a, D, E, f]);
}

#[test]
fn move_to_wants_the_place_that_it_expects(rt: HostRuntime) {
    let mut trial = Trial::new(rt.alloc());
    filled(&rt, &mut trial);
    let changed = [
        Call::MoveTo(9, (0, b"x"), (0, b"y")),
        Call::MoveTo(2, (0, b"f"), (0, b"y")),
        Call::MoveTo(2, (1, b"g"), (0, b"a")),
        Call::MoveTo(2, (1, b"f"), (9, b"f")),
        Call::MoveTo(2, (1, b"f"), (3, b"f")),
    ];
    are_refused(&rt, &mut trial, Outcome::Changed, &changed);
}

#[test]
fn nothing_moves_below_itself_or_onto_another(rt: HostRuntime) {
    let mut trial = Trial::new(rt.alloc());
    filled(&rt, &mut trial);
    let changed = [
        Call::MoveTo(1, (0, b"d"), (1, b"d")),
        Call::MoveTo(1, (0, b"d"), (4, b"d")),
        Call::MoveTo(1, (0, b"d"), (1, b"f")),
    ];
    are_refused(&rt, &mut trial, Outcome::Changed, &changed);
    let taken = [
        Call::MoveTo(2, (1, b"f"), (0, b"a")),
        Call::MoveTo(2, (1, b"f"), (1, b"e")),
    ];
    are_refused(&rt, &mut trial, Outcome::Taken, &taken);
}

#[test]
fn a_folder_moves_with_what_is_below_it(rt: HostRuntime) {
    let mut trial = Trial::new(rt.alloc());
    filled(&rt, &mut trial);
    let done = [
        Call::MoveTo(4, (1, b"e"), (0, b"B")),
        Call::MoveTo(1, (0, b"d"), (4, b"c")),
        Call::MoveTo(3, (0, b"a"), (0, b"a")),
    ];
    are_done(&rt, &mut trial, &done);
    let b = (4, (0, b"B".as_slice()), None, false);
    let c = (1, (4, b"c".as_slice()), None, false);
    trial.holds(&rt, &[b, c, F, A]);
}

#[test]
fn remove_wants_what_it_expects(rt: HostRuntime) {
    let mut trial = Trial::new(rt.alloc());
    filled(&rt, &mut trial);
    let changed = [
        Call::Remove(9, (0, b"x"), None),
        Call::Remove(2, (0, b"f"), Some(ONE)),
        Call::Remove(2, (1, b"f"), Some(HELLO)),
        Call::Remove(2, (1, b"f"), None),
        Call::Remove(4, (1, b"e"), Some(ONE)),
        Call::Remove(1, (0, b"x"), None),
    ];
    are_refused(&rt, &mut trial, Outcome::Changed, &changed);
    let full = [Call::Remove(1, (0, b"d"), None)];
    are_refused(&rt, &mut trial, Outcome::NotEmpty, &full);
}

#[test]
fn what_is_removed_gives_no_key_back(rt: HostRuntime) {
    let mut trial = Trial::new(rt.alloc());
    filled(&rt, &mut trial);
    let done = [
        Call::Remove(2, (1, b"f"), Some(ONE)),
        Call::Remove(4, (1, b"e"), None),
        Call::Remove(1, (0, b"d"), None),
    ];
    are_done(&rt, &mut trial, &done);
    trial.holds(&rt, &[A]);
    assert_eq!(&rt;
        trial.call(&rt, Call::MakeDir((0, b"d"))),
        Outcome::Made(Key(5))
    );
}

/// Whether these bytes were read, or that there are none for a key that is no file's.
fn is_read(back: &ReadBack, text: Option<Text>) -> bool {
    match (back, text) {
        (ReadBack::Bytes(bytes), Some(text)) => bytes.as_slice() == text.bytes,
        (ReadBack::Changed, None) => true,
        _ => false,
    }
}

#[test]
fn a_file_is_read(rt: HostRuntime) {
    let mut trial = Trial::new(rt.alloc());
    filled(&rt, &mut trial);
    let texts = [None, None, Some(ONE), Some(HELLO), None, None];
    for (key, text) in texts.iter().enumerate() {
        assert!(&rt; is_read(&trial.read(key as u64), *text), "key {key}");
    }
}

#[test]
fn the_second_call_fails(rt: HostRuntime) {
    let mut trial = Trial::new(rt.alloc());
    trial.fail_at(&rt, 2);
    let answers = [
        ((0, b"d".as_slice()), Outcome::Made(Key(1))),
        ((1, b"e".as_slice()), Outcome::Failed),
        ((1, b"f".as_slice()), Outcome::Made(Key(2))),
    ];
    for (spot, answer) in &answers {
        assert_eq!(&rt; trial.call(&rt, Call::MakeDir(*spot)), *answer);
    }
    trial.holds(&rt, &[D, (2, (1, b"f"), None, false)]);
}

#[test]
fn each_call_can_fail_and_changes_nothing_then(rt: HostRuntime) {
    let mut trial = Trial::new(rt.alloc());
    filled(&rt, &mut trial);
    let calls = [
        Call::MakeDir((0, b"x")),
        Call::WriteNew((0, b"x"), ONE, false),
        Call::Replace(2, ONE, HELLO),
        Call::SetBit(2, false, true),
        Call::MoveTo(2, (1, b"f"), (0, b"f")),
        Call::Remove(2, (1, b"f"), Some(ONE)),
    ];
    for k in 1..=calls.len() {
        trial.fail_at(&rt, k as u64);
    }
    are_refused(&rt, &mut trial, Outcome::Failed, &calls);
}

#[test]
fn a_listing_and_a_read_can_fail(rt: HostRuntime) {
    let mut trial = Trial::new(rt.alloc());
    filled(&rt, &mut trial);
    trial.fail_at(&rt, 1);
    trial.fail_at(&rt, 2);
    assert!(&rt; matches!(trial.list(), Listed::Failed));
    assert!(&rt; matches!(trial.read(2), ReadBack::Failed));
    trial.lists(&rt, &[A, D, E, F]);
}

#[test]
fn back_leads_to_what_was_settled(rt: HostRuntime) {
    let mut trial = Trial::new(rt.alloc());
    filled(&rt, &mut trial);
    trial.settle();
    for _ in 0..2u8 {
        let made = trial.call(&rt, Call::WriteNew((4, b"x"), ONE, false));
        assert_eq!(&rt; made, Outcome::Made(Key(5)));
        are_done(&rt, &mut trial, &[Call::MoveTo(4, (1, b"e"), (0, b"e"))]);
        trial.back();
        trial.holds(&rt, &[A, D, E, F]);
    }
}

#[test]
fn back_counts_no_call(rt: HostRuntime) {
    let mut trial = Trial::new(rt.alloc());
    filled(&rt, &mut trial);
    trial.settle();
    trial.fail_at(&rt, 2);
    trial.lists(&rt, &[A, D, E, F]);
    trial.back();
    let made = trial.call(&rt, Call::MakeDir((0, b"g")));
    assert_eq!(&rt; made, Outcome::Made(Key(5)));
    let failed = trial.call(&rt, Call::MakeDir((0, b"h")));
    assert_eq!(&rt; failed, Outcome::Failed);
}
