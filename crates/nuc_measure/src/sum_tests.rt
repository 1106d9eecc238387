//! The potential of small trees, added up by hand: for each identity that differs its cost and its marks. A line beside
//! a state has them, as `identity: cost + marks`.
use crate::test_trees::{Row, file, folder, inside, measures};
use std::alloc::Global;
use std::process::Abort;
use std::test::Fail;

/// Whether so many identities differ in the three trees, and add up to this.
fn are_so(
    rt: &impl Abort,
    alloc: Global,
    trees: [&[Row]; 3],
    count: u64,
    sum: u64,
) -> Result<(), Fail> {
    assert_eq!(rt; measures(rt, alloc, trees)?, (count, sum));
    Ok(())
}

/// The server swapped two names. One of the two makes room, then both come down.
#[test]
fn names_that_were_swapped(rt: HostRuntime) -> Result<(), Fail> {
    let old = [file(1, b"a", 5), file(2, b"b", 6)];
    let swapped = [file(1, b"b", 5), file(2, b"a", 6)];
    let copy = file(2, b"b (conflicted copy)", 6);
    let evicted = [file(1, b"a", 5), copy];
    let first_down = [file(1, b"b", 5), copy];
    // 1: 1 + 3, 2: 1 + 3. Each has a place that the other has in another tree, in all three
    are_so(&rt, rt.alloc(), [&swapped, &old, &old], 2, 8)?;
    // 1: 1 + 2, in Local and Synced, where Remote has 2. 2: 1 + 1, in Remote, where Local has 1
    are_so(&rt, rt.alloc(), [&swapped, &evicted, &evicted], 2, 5)?;
    // 2: 1 + 0
    are_so(&rt, rt.alloc(), [&swapped, &first_down, &first_down], 1, 1)?;
    are_so(&rt, rt.alloc(), [&swapped, &swapped, &swapped], 0, 0)?;
    Ok(())
}

/// Two folders that were moved into each other, one on each side: one goes back, and then the other comes down.
#[test]
fn folders_in_each_other(rt: HostRuntime) -> Result<(), Fail> {
    let (a, b) = (folder(1, 0, b"A"), folder(2, 0, b"B"));
    let remote = [b, folder(1, 2, b"A")];
    // 1: 1 + 0, 2: 1 + 0
    are_so(
        &rt,
        rt.alloc(),
        [&remote, &[a, folder(2, 1, b"B")], &[a, b]],
        2,
        2,
    )?;
    // 1: 1 + 0
    are_so(&rt, rt.alloc(), [&remote, &[a, b], &[a, b]], 1, 1)?;
    are_so(&rt, rt.alloc(), [&remote, &remote, &remote], 0, 0)?;
    Ok(())
}

/// Two new contents of one file: Local's becomes a file of its own, and then both are carried over.
#[test]
fn two_contents_of_one_file(rt: HostRuntime) -> Result<(), Fail> {
    let (theirs, ours) = (file(1, b"f", 2), file(1, b"f", 3));
    let copy = file(2, b"f (conflicted copy)", 3);
    // 1: 3 + 0
    are_so(
        &rt,
        rt.alloc(),
        [&[theirs], &[ours], &[file(1, b"f", 1)]],
        1,
        3,
    )?;
    // 1: 1 + 0, 2: 1 + 0
    are_so(&rt, rt.alloc(), [&[theirs], &[copy], &[]], 2, 2)?;
    // 2: 1 + 0
    are_so(
        &rt,
        rt.alloc(),
        [&[theirs], &[theirs, copy], &[theirs]],
        1,
        1,
    )?;
    are_so(
        &rt,
        rt.alloc(),
        [&[theirs, copy], &[theirs, copy], &[theirs, copy]],
        0,
        0,
    )?;
    Ok(())
}

/// Contents with equal hashes are no conflict: Remote's version comes down.
#[test]
fn equal_contents_need_no_split(rt: HostRuntime) -> Result<(), Fail> {
    let (theirs, ours, old) = (file(1, b"f", 12), file(1, b"f", 22), file(1, b"f", 1));
    // 1: 1 + 0
    are_so(&rt, rt.alloc(), [&[theirs], &[ours], &[old]], 1, 1)?;
    are_so(&rt, rt.alloc(), [&[theirs], &[ours], &[]], 1, 1)?;
    Ok(())
}

/// The server changed a content or a bit, the user a name: after the Down an Up has to follow.
#[test]
fn what_both_sides_changed(rt: HostRuntime) -> Result<(), Fail> {
    let (old, new) = (file(1, b"a", 5), file(1, b"a", 6));
    let program = (1, 0, b"a".as_slice(), 5, true);
    // 1: 2 + 0
    are_so(&rt, rt.alloc(), [&[new], &[file(1, b"b", 5)], &[old]], 1, 2)?;
    are_so(
        &rt,
        rt.alloc(),
        [&[program], &[file(1, b"b", 5)], &[old]],
        1,
        2,
    )?;
    // 1: 1 + 0, Synced is as Remote and Local isn't
    are_so(&rt, rt.alloc(), [&[new], &[file(1, b"b", 6)], &[new]], 1, 1)?;
    // 1: 1 + 0, both were given the same name
    are_so(
        &rt,
        rt.alloc(),
        [&[file(1, b"b", 6)], &[file(1, b"b", 5)], &[old]],
        1,
        1,
    )?;
    Ok(())
}

/// Something new on one side, and something that one side or both have deleted.
#[test]
fn what_one_side_has(rt: HostRuntime) -> Result<(), Fail> {
    let d = [folder(1, 0, b"d"), inside(2, 1, b"f", 5)];
    // Down of 1: 1 + 0, and of 2: 1 + 1, whose parent Local and Synced lack
    are_so(&rt, rt.alloc(), [&d, &[], &[]], 2, 3)?;
    // Up of both, alike
    are_so(&rt, rt.alloc(), [&[], &d, &[]], 2, 3)?;
    // CutDown of both: 1 + 0 each, since Synced has the parent
    are_so(&rt, rt.alloc(), [&[], &d, &d], 2, 2)?;
    // CutUp of both, alike
    are_so(&rt, rt.alloc(), [&d, &[], &d], 2, 2)?;
    // Forget of both: what stands in Synced alone is no orphan
    are_so(&rt, rt.alloc(), [&[], &[], &d], 2, 2)?;
    Ok(())
}

/// A new folder with a file in it goes up. The folder's entry comes before the commit's own end.
#[test]
fn an_entry_that_comes_early(rt: HostRuntime) -> Result<(), Fail> {
    let (d, f) = (folder(1, 0, b"d"), inside(2, 1, b"f", 5));
    // 1: 1 + 0, 2: 1 + 0, since Remote has the parent
    are_so(&rt, rt.alloc(), [&[d], &[d, f], &[]], 2, 2)?;
    // 2: 1 + 0
    are_so(&rt, rt.alloc(), [&[d], &[d, f], &[d]], 1, 1)?;
    Ok(())
}

/// The same folder was made on both sides: they become one, with what Local has in it.
#[test]
fn one_folder_made_twice(rt: HostRuntime) -> Result<(), Fail> {
    let (theirs, ours) = (folder(1, 0, b"d"), folder(2, 0, b"d"));
    // 1: 1 + 1, 2: 1 + 1, each at the other's place. 3: 1 + 1, whose parent stands in Local alone
    are_so(
        &rt,
        rt.alloc(),
        [&[theirs], &[ours, inside(3, 2, b"f", 5)], &[]],
        3,
        6,
    )?;
    // 1: 1 + 0, 3: 1 + 0
    are_so(
        &rt,
        rt.alloc(),
        [&[theirs], &[theirs, inside(3, 1, b"f", 5)], &[]],
        2,
        2,
    )?;
    Ok(())
}

/// What was moved below a folder that the user deleted: that comes back, the folder in between goes back, and then the
/// move comes down.
#[test]
fn a_folder_that_comes_back(rt: HostRuntime) -> Result<(), Fail> {
    let (m, c, x) = (folder(1, 0, b"M"), folder(2, 1, b"C"), folder(3, 0, b"X"));
    let remote = [m, c, folder(3, 2, b"X")];
    let synced = [m, c, x];
    let astray = folder(2, 3, b"C");
    // 1: 1 + 0, 2: 1 + 0, 3: 1 + 0
    are_so(&rt, rt.alloc(), [&remote, &[x, astray], &synced], 3, 3)?;
    // 2: 1 + 0, 3: 1 + 0
    are_so(&rt, rt.alloc(), [&remote, &[m, x, astray], &synced], 2, 2)?;
    // 3: 1 + 0
    are_so(&rt, rt.alloc(), [&remote, &synced, &synced], 1, 1)?;
    Ok(())
}

/// The user renamed a file, and made another with its old name.
#[test]
fn a_name_that_was_given_again(rt: HostRuntime) -> Result<(), Fail> {
    let (old, renamed, new) = (file(1, b"a", 5), file(1, b"b", 5), file(2, b"a", 6));
    // 1: 1 + 2, in Remote and Synced, where Local has 2. 2: 1 + 1, in Local, where Remote has 1
    are_so(&rt, rt.alloc(), [&[old], &[renamed, new], &[old]], 2, 5)?;
    // 2: 1 + 0
    are_so(
        &rt,
        rt.alloc(),
        [&[renamed], &[renamed, new], &[renamed]],
        1,
        1,
    )?;
    // 1: 1 + 1, 2: 1 + 1, each at the other's place, though the server has neither
    are_so(&rt, rt.alloc(), [&[], &[new], &[old]], 2, 4)?;
    Ok(())
}

/// No identity counts more than 6.
#[test]
fn all_that_can_be_in_the_way(rt: HostRuntime) -> Result<(), Fail> {
    // 1: 3 + 3, and 2, 3 and 4: 1 + 1 each
    let remote = [file(1, b"a", 2), file(3, b"b", 5), file(4, b"c", 5)];
    let local = [file(1, b"b", 3), file(2, b"a", 5)];
    are_so(
        &rt,
        rt.alloc(),
        [&remote, &local, &[file(1, b"c", 1)]],
        4,
        12,
    )
}
