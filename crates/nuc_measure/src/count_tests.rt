//! How many identities differ, counted by hand.
use crate::test_trees::{count, file, folder, inside};
use std::test::Fail;

#[test]
fn equal_trees_differ_nowhere(rt: HostRuntime) -> Result<(), Fail> {
    let all = [folder(1, 0, b"d"), inside(2, 1, b"f", 5)];
    assert_eq!(rt; count(&rt, rt.alloc(), [&all, &all, &all])?, 0);
    assert_eq!(rt; count(&rt, rt.alloc(), [&[], &[], &[]])?, 0);
    Ok(())
}

/// An identity counts once, in whichever of the trees it stands, and wherever the difference is.
#[test]
fn each_identity_counts_once(rt: HostRuntime) -> Result<(), Fail> {
    let (old, new, other) = (file(1, b"f", 5), file(1, b"f", 6), file(1, b"f", 7));
    assert_eq!(rt; count(&rt, rt.alloc(), [&[new], &[other], &[old]])?, 1);
    assert_eq!(rt; count(&rt, rt.alloc(), [&[new], &[new], &[old]])?, 1);
    assert_eq!(rt; count(&rt, rt.alloc(), [&[old], &[new], &[new]])?, 1);
    assert_eq!(rt; count(&rt, rt.alloc(), [&[old], &[new], &[old]])?, 1);
    Ok(())
}

/// So it is where it stands in one tree or in two.
#[test]
fn what_is_missing_differs(rt: HostRuntime) -> Result<(), Fail> {
    let (a, b, c) = (file(3, b"a", 5), file(5, b"b", 5), file(8, b"c", 5));
    assert_eq!(rt; count(&rt, rt.alloc(), [&[a], &[b], &[c]])?, 3);
    assert_eq!(rt; count(&rt, rt.alloc(), [&[a, c], &[b, c], &[a, b, c]])?, 2);
    assert_eq!(rt; count(&rt, rt.alloc(), [&[], &[], &[a, b]])?, 2);
    Ok(())
}

/// A name is compared byte for byte, and a folder that moved differs while what is in it doesn't.
#[test]
fn places_differ(rt: HostRuntime) -> Result<(), Fail> {
    let (d, e, f) = (
        folder(1, 0, b"d"),
        folder(2, 0, b"e"),
        inside(3, 1, b"f", 5),
    );
    let (big, inside) = (folder(2, 0, b"E"), folder(2, 1, b"e"));
    assert_eq!(rt;
        count(&rt, rt.alloc(), [&[d, e, f], &[d, big, f], &[d, e, f]])?,
        1
    );
    assert_eq!(rt;
        count(&rt, rt.alloc(), [&[d, inside, f], &[d, e, f], &[d, e, f]])?,
        1
    );
    Ok(())
}
