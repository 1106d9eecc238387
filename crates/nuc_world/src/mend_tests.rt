//! Two files at one place, and a file that both sides have written.
use crate::trial::{Edit, Names, ONE, Plan, THREE, TWO, Text, Trial};
use nuc_class::Verb;
use nuc_folder::{Outcome, RanOp};
use nuc_log::{MarkReply, TakeReply};
use std::alloc::Global;
use std::process::Abort;
use std::test::Fail;

/// One call of the folder was made for the operation, and changed what was there.
fn was_made(took: Option<TakeReply>) -> bool {
    took == Some(TakeReply::Folder(RanOp {
        outcome: Outcome::Ok,
        made: 1,
    }))
}

/// The user has written a file, identity 1 of version 1, and then the web another at the same place, identity 2 of
/// version 2. The client knows of both.
fn both_made(rt: &impl Abort, alloc: Global, names: Names, by_user: Text, by_web: Text) -> Trial {
    let mut trial = Trial::new(rt, alloc);
    trial.user(rt, Edit::Write(names, by_user));
    trial.observe(rt);
    trial.web(rt, Edit::Write(names, by_web));
    trial.pull(rt);
    trial
}

/// Of the file `f` in step with the server, with version 1, the user has written version 2 and the web version 3. The
/// client knows of both.
fn both_written(rt: &impl Abort, alloc: Global, by_user: Text, by_web: Text) -> Trial {
    let mut trial = Trial::with_file(rt, alloc);
    trial.user(rt, Edit::Write(&["f"], by_user));
    trial.observe(rt);
    trial.web(rt, Edit::Write(&["f"], by_web));
    trial.pull(rt);
    trial
}

/// Two operations are carried out, and then nothing is left to do.
fn ends_quiet(trial: &mut Trial, rt: &impl Abort, first: u64, second: u64) -> bool {
    trial.carry_out(rt, first);
    trial.carry_out(rt, second);
    trial.plans(rt, Plan::Empty) && trial.mark(rt) == Some(MarkReply::Quiet)
}

/// The operation of this number begins, is taken and ends, and what comes next is this batch.
fn leads_to(trial: &mut Trial, rt: &impl Abort, number: u64, batch: Plan) -> bool {
    was_made(trial.carry_out(rt, number)) && trial.plans(rt, batch)
}

#[test]
fn the_users_file_makes_room(rt: HostRuntime) -> Result<(), Fail> {
    let mut trial = both_made(&rt, rt.alloc(), &["f.txt"], ONE, TWO);
    assert!(&rt; trial.plans(&rt, Plan::Mend((1, Verb::Evict, 1, 0))));
    assert!(&rt; was_made(trial.carry_out(&rt, 1)));
    assert!(&rt; trial.has_local(&rt, &[(1, 0, "f (conflicted copy).txt", 1)]));
    assert!(&rt; trial.has_folder(&rt, &[(1, 0, "f (conflicted copy).txt", Some(ONE))]));
    assert!(&rt; trial.has_server(&[(2, 0, "f.txt", 2)]));
    Ok(())
}

#[test]
fn both_files_come_to_both_sides(rt: HostRuntime) -> Result<(), Fail> {
    let mut trial = both_made(&rt, rt.alloc(), &["f"], ONE, TWO);
    assert!(&rt; trial.plans(&rt, Plan::Mend((1, Verb::Evict, 1, 0))));
    let batch = Plan::Batch(&[(2, Verb::Up, 1, 0), (3, Verb::Down, 2, 0)]);
    assert!(&rt; leads_to(&mut trial, &rt, 1, batch));
    assert!(&rt; ends_quiet(&mut trial, &rt, 2, 3));
    assert!(&rt; trial.has_server(&[(1, 0, "f (conflicted copy)", 1), (2, 0, "f", 2)]));
    assert!(&rt;
        trial.has_folder(
            &rt,
            &[
                (2, 0, "f", Some(TWO)),
                (1, 0, "f (conflicted copy)", Some(ONE))
            ]
        )
    );
    Ok(())
}

#[test]
fn a_copys_name_is_free_in_the_folder(rt: HostRuntime) -> Result<(), Fail> {
    let mut trial = both_made(&rt, rt.alloc(), &["f"], ONE, TWO);
    trial.user(&rt, Edit::Mkdir(&["f (conflicted copy)"]));
    trial.observe(&rt);
    // The folder can go up, but what is at one place can't.
    assert!(&rt; trial.plans(&rt, Plan::Batch(&[(1, Verb::Up, 3, 0)])));
    trial.carry_out(&rt, 1);
    assert!(&rt; trial.plans(&rt, Plan::Mend((2, Verb::Evict, 1, 0))));
    assert!(&rt; was_made(trial.carry_out(&rt, 2)));
    assert!(&rt;
        trial.has_local(
            &rt,
            &[
                (1, 0, "f (conflicted copy 2)", 1),
                (3, 0, "f (conflicted copy)", 0)
            ]
        )
    );
    Ok(())
}

#[test]
fn equal_files_become_one(rt: HostRuntime) -> Result<(), Fail> {
    let mut trial = both_made(&rt, rt.alloc(), &["f"], ONE, ONE);
    assert!(&rt; trial.plans(&rt, Plan::Mend((1, Verb::Adopt, 2, 1))));
    assert!(&rt; trial.has_local(&rt, &[(2, 0, "f", 2)]));
    assert!(&rt; trial.has_adopted(1, 2));
    assert!(&rt; trial.plans(&rt, Plan::Booked((2, Verb::Down, 2, 0))));
    assert!(&rt; trial.plans(&rt, Plan::Empty));
    assert!(&rt; trial.has_server(&[(2, 0, "f", 2)]));
    assert!(&rt; trial.has_folder(&rt, &[(1, 0, "f", Some(ONE))]));
    Ok(())
}

/// The user has made a folder `d`, identity 1, with a file in it, identity 2, and then the web another folder there,
/// identity 3. The client knows of all.
fn both_made_a_folder(rt: &impl Abort, alloc: Global) -> Trial {
    let mut trial = Trial::new(rt, alloc);
    trial.user(rt, Edit::Mkdir(&["d"]));
    trial.user(rt, Edit::Write(&["d", "f"], ONE));
    trial.observe(rt);
    trial.web(rt, Edit::Mkdir(&["d"]));
    trial.pull(rt);
    trial
}

#[test]
fn folders_become_one_with_what_is_in_them(rt: HostRuntime) -> Result<(), Fail> {
    let mut trial = both_made_a_folder(&rt, rt.alloc());
    assert!(&rt; trial.plans(&rt, Plan::Mend((1, Verb::Adopt, 3, 1))));
    assert!(&rt; trial.has_local(&rt, &[(2, 3, "f", 1), (3, 0, "d", 0)]));
    assert!(&rt; trial.plans(&rt, Plan::Booked((2, Verb::Down, 3, 0))));
    assert!(&rt; trial.plans(&rt, Plan::Batch(&[(3, Verb::Up, 2, 0)])));
    assert!(&rt; trial.carry_out(&rt, 3) == Some(TakeReply::Accepted(2)));
    assert!(&rt; trial.has_server(&[(2, 3, "f", 1), (3, 0, "d", 0)]));
    Ok(())
}

#[test]
fn the_users_version_becomes_a_copy(rt: HostRuntime) -> Result<(), Fail> {
    let mut trial = both_written(&rt, rt.alloc(), TWO, THREE);
    assert!(&rt; trial.plans(&rt, Plan::Mend((2, Verb::Split, 1, 2))));
    assert!(&rt; was_made(trial.carry_out(&rt, 2)));
    assert!(&rt; trial.has_local(&rt, &[(2, 0, "f (conflicted copy)", 2)]));
    assert!(&rt; trial.has_folder(&rt, &[(1, 0, "f (conflicted copy)", Some(TWO))]));
    assert!(&rt; trial.has_server(&[(1, 0, "f", 3)]));
    Ok(())
}

#[test]
fn both_versions_come_to_both_sides(rt: HostRuntime) -> Result<(), Fail> {
    let mut trial = both_written(&rt, rt.alloc(), TWO, THREE);
    assert!(&rt; trial.plans(&rt, Plan::Mend((2, Verb::Split, 1, 2))));
    let batch = Plan::Batch(&[(3, Verb::Down, 1, 0), (4, Verb::Up, 2, 0)]);
    assert!(&rt; leads_to(&mut trial, &rt, 2, batch));
    assert!(&rt; ends_quiet(&mut trial, &rt, 3, 4));
    assert!(&rt; trial.has_server(&[(1, 0, "f", 3), (2, 0, "f (conflicted copy)", 2)]));
    assert!(&rt;
        trial.has_folder(
            &rt,
            &[
                (2, 0, "f", Some(THREE)),
                (1, 0, "f (conflicted copy)", Some(TWO))
            ]
        )
    );
    Ok(())
}

#[test]
fn equal_versions_need_no_copy(rt: HostRuntime) -> Result<(), Fail> {
    let mut trial = both_written(&rt, rt.alloc(), TWO, TWO);
    assert!(&rt; trial.plans(&rt, Plan::Booked((2, Verb::Down, 1, 0))));
    assert!(&rt; trial.has_local(&rt, &[(1, 0, "f", 3)]));
    assert!(&rt; trial.has_adopted(2, 3));
    assert!(&rt; trial.plans(&rt, Plan::Empty));
    assert!(&rt; trial.has_server(&[(1, 0, "f", 3)]));
    assert!(&rt; trial.has_folder(&rt, &[(1, 0, "f", Some(TWO))]));
    Ok(())
}
