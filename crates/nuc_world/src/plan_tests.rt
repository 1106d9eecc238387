//! What a client plans, and what comes of it.
use crate::trial::{Edit, ONE, Plan, TWO, Trial};
use nuc_class::Verb;
use nuc_folder::{Key, Outcome, RanOp};
use nuc_log::{MarkReply, TakeReply};
use nuc_server::WebReply;
use nuc_step::Scanned;
use std::process::Abort;
use std::test::Fail;

/// One call of the folder did this.
fn ran(outcome: Outcome) -> Option<TakeReply> {
    Some(TakeReply::Folder(RanOp { outcome, made: 1 }))
}

/// The folder's file is at the server, and this edit of the web is known to the client, as revision 2.
fn with_web_edit(rt: &impl Abort, mut trial: Trial, edit: Edit) -> Trial {
    assert!(rt; trial.web(rt, edit) == Some(WebReply::Accepted(2)));
    assert!(rt; trial.pull(rt) == Some((1, 2)));
    trial
}

/// The user has made a folder with a file in it, and the client knows of them.
fn with_folder(rt: &impl Abort, mut trial: Trial) -> Trial {
    trial.user(rt, Edit::Mkdir(&["d"]));
    trial.user(rt, Edit::Write(&["d", "f"], ONE));
    assert!(rt; trial.observe(rt) == Some(Scanned::Changed(2)));
    trial
}

/// The user has written a file, and the client knows of it.
fn with_new_file(rt: &impl Abort, mut trial: Trial) -> Trial {
    trial.user(rt, Edit::Write(&["f"], ONE));
    assert!(rt; trial.observe(rt) == Some(Scanned::Changed(1)));
    trial
}

#[test]
fn nothing_is_planned_for_no_files(rt: HostRuntime) -> Result<(), Fail> {
    let mut trial = Trial::new(&rt, rt.alloc());
    assert!(&rt; trial.plans(&rt, Plan::Empty));
    assert!(&rt; trial.mark(&rt) == Some(MarkReply::Quiet));
    Ok(())
}

#[test]
fn nothing_is_planned_for_equal_trees(rt: HostRuntime) -> Result<(), Fail> {
    let mut trial = Trial::with_file(&rt, rt.alloc());
    assert!(&rt; trial.plans(&rt, Plan::Empty));
    assert!(&rt; trial.mark(&rt) == Some(MarkReply::Quiet));
    assert!(&rt; trial.has_server(&[(1, 0, "f", 1)]));
    Ok(())
}

#[test]
fn a_new_file_goes_up(rt: HostRuntime) -> Result<(), Fail> {
    let mut trial = with_new_file(&rt, Trial::new(&rt, rt.alloc()));
    assert!(&rt; trial.plans(&rt, Plan::Batch(&[(1, Verb::Up, 1, 0)])));
    assert!(&rt; trial.carry_out(&rt, 1) == Some(TakeReply::Accepted(1)));
    assert!(&rt; trial.has_server(&[(1, 0, "f", 1)]));
    assert!(&rt; trial.mark(&rt) == Some(MarkReply::Quiet));
    Ok(())
}

#[test]
fn files_that_dont_meet_go_up_together(rt: HostRuntime) -> Result<(), Fail> {
    let mut trial = with_new_file(&rt, Trial::new(&rt, rt.alloc()));
    trial.user(&rt, Edit::Write(&["g"], TWO));
    assert!(&rt; trial.observe(&rt) == Some(Scanned::Changed(1)));
    assert!(&rt;
        trial.plans(
            &rt,
            Plan::Batch(&[(1, Verb::Up, 1, 0), (2, Verb::Up, 2, 0)])
        )
    );
    assert!(&rt; trial.carry_out(&rt, 2) == Some(TakeReply::Accepted(1)));
    assert!(&rt; trial.has_server(&[(2, 0, "g", 2)]));
    Ok(())
}

#[test]
fn a_folder_goes_up_before_its_file(rt: HostRuntime) -> Result<(), Fail> {
    let mut trial = with_folder(&rt, Trial::new(&rt, rt.alloc()));
    assert!(&rt; trial.plans(&rt, Plan::Batch(&[(1, Verb::Up, 1, 0)])));
    assert!(&rt; trial.carry_out(&rt, 1) == Some(TakeReply::Accepted(1)));
    assert!(&rt; trial.plans(&rt, Plan::Batch(&[(2, Verb::Up, 2, 0)])));
    assert!(&rt; trial.carry_out(&rt, 2) == Some(TakeReply::Accepted(2)));
    assert!(&rt; trial.has_server(&[(1, 0, "d", 0), (2, 1, "f", 1)]));
    Ok(())
}

#[test]
fn a_second_plan_is_busy(rt: HostRuntime) -> Result<(), Fail> {
    let mut trial = with_new_file(&rt, Trial::new(&rt, rt.alloc()));
    assert!(&rt; trial.plans(&rt, Plan::Batch(&[(1, Verb::Up, 1, 0)])));
    assert!(&rt; trial.plans(&rt, Plan::Busy(1)));
    assert!(&rt; trial.mark(&rt) == Some(MarkReply::Stalled(1)));
    assert!(&rt; trial.carry_out(&rt, 1) == Some(TakeReply::Accepted(1)));
    assert!(&rt; trial.plans(&rt, Plan::Empty));
    Ok(())
}

#[test]
fn what_a_restart_forgets_is_planned_anew(rt: HostRuntime) -> Result<(), Fail> {
    let mut trial = with_new_file(&rt, Trial::new(&rt, rt.alloc()));
    assert!(&rt; trial.plans(&rt, Plan::Batch(&[(1, Verb::Up, 1, 0)])));
    trial.restart(&rt);
    assert!(&rt; trial.plans(&rt, Plan::Batch(&[(2, Verb::Up, 1, 0)])));
    assert!(&rt; trial.carry_out(&rt, 2) == Some(TakeReply::Accepted(1)));
    assert!(&rt; trial.mark(&rt) == Some(MarkReply::Quiet));
    Ok(())
}

#[test]
fn a_restart_forgets_the_listing(rt: HostRuntime) -> Result<(), Fail> {
    let mut trial = Trial::with_file(&rt, rt.alloc());
    assert!(&rt; trial.list(&rt) == Some((1, 1)));
    trial.restart(&rt);
    assert!(&rt; trial.scan(&rt) == Some(Scanned::NoListing));
    assert!(&rt; trial.has_local(&rt, &[(1, 0, "f", 1)]));
    Ok(())
}

#[test]
fn a_version_of_the_web_comes_down(rt: HostRuntime) -> Result<(), Fail> {
    let trial = Trial::with_file(&rt, rt.alloc());
    let mut trial = with_web_edit(&rt, trial, Edit::Write(&["f"], TWO));
    assert!(&rt; trial.plans(&rt, Plan::Batch(&[(2, Verb::Down, 1, 0)])));
    assert!(&rt; trial.carry_out(&rt, 2) == ran(Outcome::Ok));
    assert!(&rt; trial.has_local(&rt, &[(1, 0, "f", 2)]));
    assert!(&rt; trial.has_folder(&rt, &[(1, 0, "f", Some(TWO))]));
    assert!(&rt; trial.mark(&rt) == Some(MarkReply::Quiet));
    Ok(())
}

#[test]
fn a_file_of_the_web_is_made(rt: HostRuntime) -> Result<(), Fail> {
    let trial = Trial::with_file(&rt, rt.alloc());
    let mut trial = with_web_edit(&rt, trial, Edit::Write(&["g"], TWO));
    assert!(&rt; trial.plans(&rt, Plan::Batch(&[(2, Verb::Down, 2, 0)])));
    assert!(&rt; trial.carry_out(&rt, 2) == ran(Outcome::Made(Key(2))));
    assert!(&rt; trial.has_local(&rt, &[(1, 0, "f", 1), (2, 0, "g", 2)]));
    assert!(&rt; trial.has_folder(&rt, &[(1, 0, "f", Some(ONE)), (2, 0, "g", Some(TWO))]));
    Ok(())
}

#[test]
fn what_the_web_removes_goes(rt: HostRuntime) -> Result<(), Fail> {
    let trial = Trial::with_file(&rt, rt.alloc());
    let mut trial = with_web_edit(&rt, trial, Edit::Remove(&["f"]));
    assert!(&rt; trial.plans(&rt, Plan::Batch(&[(2, Verb::CutDown, 1, 0)])));
    assert!(&rt; trial.carry_out(&rt, 2) == ran(Outcome::Ok));
    assert!(&rt; trial.has_local(&rt, &[]));
    assert!(&rt; trial.has_folder(&rt, &[]));
    Ok(())
}
