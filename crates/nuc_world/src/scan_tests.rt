//! A client's listings, scans and watches, step by step.
use crate::Stop;
use crate::trial::{Edit, ONE, TWO, Trial};
use nuc_base::NodeId;
use nuc_step::{Scanned, WatchReply};
use std::test::Fail;

#[test]
fn a_moved_file_keeps_its_identity(rt: HostRuntime) -> Result<(), Fail> {
    let mut trial = Trial::with_file(&rt, rt.alloc());
    trial.user(&rt, Edit::Move(&["f"], &["g"]));
    assert!(&rt; trial.observe(&rt) == Some(Scanned::Changed(1)));
    assert!(&rt; trial.has_local(&rt, &[(1, 0, "g", 1)]));
    assert!(&rt; trial.has_last_edit(1, (1, 1, 0, Some(ONE))));
    Ok(())
}

#[test]
fn a_changed_file_has_a_new_version(rt: HostRuntime) -> Result<(), Fail> {
    let mut trial = Trial::with_file(&rt, rt.alloc());
    trial.user(&rt, Edit::Write(&["f"], TWO));
    assert!(&rt; trial.observe(&rt) == Some(Scanned::Changed(1)));
    assert!(&rt; trial.has_local(&rt, &[(1, 0, "f", 2)]));
    assert!(&rt; trial.has_last_edit(2, (2, 1, 1, Some(TWO))));
    Ok(())
}

#[test]
fn a_removed_file_is_gone(rt: HostRuntime) -> Result<(), Fail> {
    let mut trial = Trial::with_file(&rt, rt.alloc());
    trial.user(&rt, Edit::Remove(&["f"]));
    assert!(&rt; trial.observe(&rt) == Some(Scanned::Changed(1)));
    assert!(&rt; trial.has_local(&rt, &[]));
    assert!(&rt; trial.has_last_edit(2, (2, 1, 1, None)));
    Ok(())
}

#[test]
fn a_file_at_the_place_of_a_removed_one_is_new(rt: HostRuntime) -> Result<(), Fail> {
    let mut trial = Trial::with_file(&rt, rt.alloc());
    trial.user(&rt, Edit::Remove(&["f"]));
    trial.user(&rt, Edit::Write(&["f"], TWO));
    assert!(&rt; trial.observe(&rt) == Some(Scanned::Changed(2)));
    // What is listed draws its version before what is gone draws one.
    assert!(&rt; trial.has_local(&rt, &[(2, 0, "f", 2)]));
    assert!(&rt; trial.has_last_edit(3, (3, 1, 1, None)));
    Ok(())
}

#[test]
fn nothing_new_is_no_change(rt: HostRuntime) -> Result<(), Fail> {
    let mut trial = Trial::with_file(&rt, rt.alloc());
    assert!(&rt; trial.list(&rt) == Some((1, 1)));
    assert!(&rt; trial.scan(&rt) == Some(Scanned::Changed(0)));
    assert!(&rt; trial.changes(&rt) == 1);
    assert!(&rt; trial.has_local(&rt, &[(1, 0, "f", 1)]));
    Ok(())
}

#[test]
fn an_older_listing_is_stale(rt: HostRuntime) -> Result<(), Fail> {
    let mut trial = Trial::with_file(&rt, rt.alloc());
    assert!(&rt; trial.list(&rt) == Some((1, 1)));
    trial.user(&rt, Edit::Write(&["f"], TWO));
    assert!(&rt; trial.watch(&rt) == Some(WatchReply::Changed(NodeId(1))));
    assert!(&rt; trial.scan(&rt) == Some(Scanned::Stale(2)));
    assert!(&rt; trial.has_local(&rt, &[(1, 0, "f", 2)]) && trial.changes(&rt) == 2);
    Ok(())
}

#[test]
fn a_scan_uses_its_listing_up(rt: HostRuntime) -> Result<(), Fail> {
    let mut trial = Trial::new(&rt, rt.alloc());
    trial.user(&rt, Edit::Mkdir(&["d"]));
    assert!(&rt; trial.scan(&rt) == Some(Scanned::NoListing));
    assert!(&rt; trial.has_local(&rt, &[]));
    assert!(&rt; trial.observe(&rt) == Some(Scanned::Changed(1)));
    assert!(&rt; trial.scan(&rt) == Some(Scanned::NoListing));
    assert!(&rt; trial.has_local(&rt, &[(1, 0, "d", 0)]));
    Ok(())
}

#[test]
fn a_stale_listing_is_used_up(rt: HostRuntime) -> Result<(), Fail> {
    let mut trial = Trial::new(&rt, rt.alloc());
    assert!(&rt; trial.list(&rt) == Some((0, 0)));
    trial.user(&rt, Edit::Mkdir(&["d"]));
    assert!(&rt; trial.watch(&rt) == Some(WatchReply::Changed(NodeId(1))));
    assert!(&rt; trial.scan(&rt) == Some(Scanned::Stale(1)));
    assert!(&rt; trial.scan(&rt) == Some(Scanned::NoListing));
    assert!(&rt; trial.has_local(&rt, &[(1, 0, "d", 0)]));
    Ok(())
}

#[test]
fn a_failed_listing_leaves_the_one_that_is_held(rt: HostRuntime) -> Result<(), Fail> {
    let mut trial = Trial::new(&rt, rt.alloc());
    trial.user(&rt, Edit::Mkdir(&["d"]));
    assert!(&rt; trial.list(&rt) == Some((0, 1)));
    assert!(&rt; trial.list_in_vain(&rt) == Some(Stop::FolderFault));
    assert!(&rt; trial.steps() == 3);
    assert!(&rt; trial.scan(&rt) == Some(Scanned::Changed(1)));
    assert!(&rt; trial.has_local(&rt, &[(1, 0, "d", 0)]));
    Ok(())
}
