//! The changes of a user that a client takes over one by one.
use crate::trial::{Edit, ONE, TWO, Trial};
use nuc_base::NodeId;
use nuc_step::WatchReply;
use std::process::Abort;
use std::test::Fail;

#[test]
fn nothing_is_pending(rt: HostRuntime) -> Result<(), Fail> {
    let mut trial = Trial::new(&rt, rt.alloc());
    assert!(&rt; trial.watches_in_vain(&rt) && trial.steps() == 2);
    trial.user(&rt, Edit::Mkdir(&["d"]));
    // A listing has what was pending.
    trial.list(&rt);
    assert!(&rt; trial.watches_in_vain(&rt));
    assert!(&rt; trial.changes(&rt) == 0 && trial.has_local(&rt, &[]));
    Ok(())
}

#[test]
fn what_was_made_comes_one_by_one(rt: HostRuntime) -> Result<(), Fail> {
    let mut trial = Trial::new(&rt, rt.alloc());
    trial.user(&rt, Edit::Mkdir(&["d"]));
    trial.user(&rt, Edit::Write(&["d", "f"], ONE));
    assert!(&rt; trial.watch(&rt) == Some(WatchReply::Changed(NodeId(1))));
    assert!(&rt; trial.has_local(&rt, &[(1, 0, "d", 0)]));
    assert!(&rt; trial.watch(&rt) == Some(WatchReply::Changed(NodeId(2))));
    assert!(&rt; trial.has_local(&rt, &[(1, 0, "d", 0), (2, 1, "f", 1)]));
    Ok(())
}

#[test]
fn a_new_file_has_an_edit(rt: HostRuntime) -> Result<(), Fail> {
    let mut trial = Trial::new(&rt, rt.alloc());
    trial.user(&rt, Edit::Write(&["f"], ONE));
    assert!(&rt; trial.watch(&rt) == Some(WatchReply::Changed(NodeId(1))));
    assert!(&rt; trial.has_last_edit(1, (1, 1, 0, Some(ONE))));
    assert!(&rt; trial.watches_in_vain(&rt) && trial.changes(&rt) == 1);
    Ok(())
}

#[test]
fn a_written_file_has_a_new_version(rt: HostRuntime) -> Result<(), Fail> {
    let mut trial = Trial::with_file(&rt, rt.alloc());
    trial.user(&rt, Edit::Write(&["f"], TWO));
    assert!(&rt; trial.watch(&rt) == Some(WatchReply::Changed(NodeId(1))));
    assert!(&rt; trial.has_local(&rt, &[(1, 0, "f", 2)]));
    assert!(&rt; trial.has_last_edit(2, (2, 1, 1, Some(TWO))));
    assert!(&rt; trial.changes(&rt) == 2);
    Ok(())
}

#[test]
fn a_moved_file_keeps_its_version(rt: HostRuntime) -> Result<(), Fail> {
    let mut trial = Trial::with_file(&rt, rt.alloc());
    trial.user(&rt, Edit::Move(&["f"], &["g"]));
    assert!(&rt; trial.watch(&rt) == Some(WatchReply::Changed(NodeId(1))));
    assert!(&rt; trial.has_local(&rt, &[(1, 0, "g", 1)]));
    assert!(&rt; trial.has_last_edit(1, (1, 1, 0, Some(ONE))));
    assert!(&rt; trial.changes(&rt) == 2);
    Ok(())
}

#[test]
fn a_removed_file_has_an_edit(rt: HostRuntime) -> Result<(), Fail> {
    let mut trial = Trial::with_file(&rt, rt.alloc());
    trial.user(&rt, Edit::Remove(&["f"]));
    assert!(&rt; trial.watch(&rt) == Some(WatchReply::Changed(NodeId(1))));
    assert!(&rt; trial.has_local(&rt, &[]));
    assert!(&rt; trial.has_last_edit(2, (2, 1, 1, None)));
    assert!(&rt; trial.changes(&rt) == 2);
    Ok(())
}

#[test]
fn a_bit_is_taken_over(rt: HostRuntime) -> Result<(), Fail> {
    let mut trial = Trial::with_file(&rt, rt.alloc());
    assert!(&rt; !trial.has_bit(&rt, 1));
    trial.user(&rt, Edit::Bit(&["f"], true));
    assert!(&rt; trial.watch(&rt) == Some(WatchReply::Changed(NodeId(1))));
    assert!(&rt; trial.has_bit(&rt, 1));
    assert!(&rt; trial.has_local(&rt, &[(1, 0, "f", 1)]) && trial.changes(&rt) == 2);
    Ok(())
}

#[test]
fn the_same_bytes_are_no_change(rt: HostRuntime) -> Result<(), Fail> {
    let mut trial = Trial::with_file(&rt, rt.alloc());
    trial.user(&rt, Edit::Write(&["f"], ONE));
    assert!(&rt; trial.watch(&rt) == Some(WatchReply::Changed(NodeId(1))));
    assert!(&rt; trial.has_local(&rt, &[(1, 0, "f", 1)]));
    assert!(&rt; trial.has_last_edit(1, (1, 1, 0, Some(ONE))));
    assert!(&rt; trial.changes(&rt) == 1);
    Ok(())
}

/// A folder `d` with a file in it, listed but not scanned: the client doesn't know their keys, and is told nothing of them.
fn unknown(trial: &mut Trial, rt: &impl Abort) {
    trial.user(rt, Edit::Mkdir(&["d"]));
    trial.user(rt, Edit::Write(&["d", "f"], ONE));
    trial.list(rt);
}

/// The edit is told, can't be taken over, and changes nothing.
fn is_rescan(trial: &mut Trial, rt: &impl Abort, edit: Edit) -> bool {
    trial.user(rt, edit);
    trial.watch(rt) == Some(WatchReply::Rescan)
        && trial.has_local(rt, &[])
        && trial.changes(rt) == 0
        && trial.edits() == 0
}

#[test]
fn what_is_below_an_unknown_folder_wants_a_scan(rt: HostRuntime) -> Result<(), Fail> {
    let mut trial = Trial::new(&rt, rt.alloc());
    unknown(&mut trial, &rt);
    assert!(&rt; is_rescan(&mut trial, &rt, Edit::Mkdir(&["d", "e"])));
    assert!(&rt; is_rescan(&mut trial, &rt, Edit::Write(&["d", "g"], TWO)));
    Ok(())
}

#[test]
fn a_change_of_an_unknown_file_wants_a_scan(rt: HostRuntime) -> Result<(), Fail> {
    let mut trial = Trial::new(&rt, rt.alloc());
    unknown(&mut trial, &rt);
    assert!(&rt; is_rescan(&mut trial, &rt, Edit::Write(&["d", "f"], TWO)));
    assert!(&rt; is_rescan(&mut trial, &rt, Edit::Bit(&["d", "f"], true)));
    assert!(&rt; is_rescan(&mut trial, &rt, Edit::Move(&["d", "f"], &["f"])));
    assert!(&rt; is_rescan(&mut trial, &rt, Edit::Remove(&["f"])));
    Ok(())
}
