//! The rows of the table of wishes, and what is due, over small trees.
ghost use Rattle.std.specs.Prelude.{IfOk};
ghost use Rattle.nuc_base.specs.Trees.{WellFormed};

use crate::tests::LastDigit;
use crate::{Verb, Wish, due, wish};
use nuc_base::{Kind, Name, Node, NodeId, Place, TreeLike, Ver};
use nuc_tree::Tree;
use std::alloc::Global;
use std::process::Abort;
use std::test::Fail;

/// An identity, its parent, its name and its version: a folder for version 0, else a file.
type Row = (u64, u64, &'static [u8], u64);

/// The tree with these nodes, parents first.
fn tree(rt: &impl Abort, alloc: Global, rows: &[Row]) -> Result<Tree, Fail>
    ensures { IfOk result (λ tree. WellFormed tree.nodes) }
{
    let mut tree = Tree::new(alloc);
    for &(id, parent, name, ver) in rows {
        assert!(rt; id > 0);
        let name = Name::new(alloc, name)?;
        let parent = NodeId(parent);
        let node = Node {
            place: Place { parent, name },
            kind: if ver == 0 { Kind::Folder } else { Kind::File },
            ver: Ver(ver),
            bit: false,
        };
        tree.put(NodeId(id), node)?;
    }
    Ok(tree)
}

/// Whether identity 1 has this wish, by the nodes of Remote, Local and Synced.
fn is_wished(rt: &impl Abort, alloc: Global, trees: [&[Row]; 3], want: Wish) -> Result<(), Fail> {
    let [r, l, s] = trees;
    let (r, l, s) = (
        tree(rt, alloc, r)?,
        tree(rt, alloc, l)?,
        tree(rt, alloc, s)?,
    );
    assert_eq!(rt; wish(&r, &l, &s, &LastDigit, NodeId(1)), want);
    Ok(())
}

const D: Row = (1, 0, b"d", 0);

fn file(ver: u64) -> [Row; 1] {
    [(1, 0, b"f", ver)]
}

#[test]
fn both_sides_have_it(rt: HostRuntime) -> Result<(), Fail> {
    for (r, l, s, want) in [
        (7, 8, 5, Wish::Split),
        (7, 17, 5, Wish::Down),
        (7, 5, 5, Wish::Down),
        (5, 8, 5, Wish::Up),
        (5, 5, 5, Wish::Nothing),
    ] {
        let (r, l, s) = (file(r), file(l), file(s));
        is_wished(&rt, rt.alloc(), [&r, &l, &s], want)?;
    }
    let (r, l) = (file(7), file(8));
    is_wished(&rt, rt.alloc(), [&r, &l, &[]], Wish::Split)?;
    is_wished(&rt, rt.alloc(), [&r, &r, &[]], Wish::Down)
}

#[test]
fn one_side_has_it(rt: HostRuntime) -> Result<(), Fail> {
    let (new, old) = (file(7), file(5));
    for (r, l, s, want) in [
        (&new[..], &[][..], &[][..], Wish::Down),
        (&new, &[], &old, Wish::Down),
        (&old, &[], &old, Wish::CutUp),
        (&[], &new, &[], Wish::Up),
        (&[], &new, &old, Wish::Up),
        (&[], &old, &old, Wish::CutDown),
        (&[], &[], &old, Wish::Forget),
        (&[], &[], &[], Wish::Nothing),
    ] {
        is_wished(&rt, rt.alloc(), [r, l, s], want)?;
    }
    Ok(())
}

#[test]
fn a_folder_goes_in_local(rt: HostRuntime) -> Result<(), Fail> {
    let whole = [D, (2, 1, b"e".as_slice(), 0), (3, 2, b"f", 5)];
    let newer = [D, (2, 1, b"e".as_slice(), 0), (3, 2, b"f", 8)];
    let more = [
        D,
        (2, 1, b"e".as_slice(), 0),
        (3, 2, b"f", 5),
        (4, 2, b"g", 6),
    ];
    let out: [Row; 1] = [(3, 0, b"f", 5)];
    for (r, l, s, want) in [
        (&[][..], &whole[..], &whole[..], Wish::CutDown),
        // Remote has moved the file out, or has it where Synced never had it.
        (&out, &whole, &whole, Wish::CutDown),
        (&out, &newer, &whole, Wish::CutDown),
        (&out, &whole, &whole[..2], Wish::CutDown),
        // Local has written the file again, or has a new one.
        (&[], &newer, &whole, Wish::Up),
        (&[], &more, &whole, Wish::Up),
        (&out, &more, &whole, Wish::Up),
    ] {
        is_wished(&rt, rt.alloc(), [r, l, s], want)?;
    }
    Ok(())
}

#[test]
fn a_folder_goes_in_remote(rt: HostRuntime) -> Result<(), Fail> {
    let whole = [D, (2, 1, b"e".as_slice(), 0), (3, 2, b"f", 5)];
    let newer = [D, (2, 1, b"e".as_slice(), 0), (3, 2, b"f", 8)];
    let more = [
        D,
        (2, 1, b"e".as_slice(), 0),
        (3, 2, b"f", 5),
        (4, 2, b"g", 6),
    ];
    let moved = [D, (2, 1, b"e".as_slice(), 0), (3, 2, b"h", 5)];
    let out: [Row; 1] = [(3, 0, b"f", 5)];
    for (r, l, s, want) in [
        (&whole[..], &[][..], &whole[..], Wish::CutUp),
        // Local has moved the file out, and Remote has it where it was.
        (&whole, &out, &whole, Wish::CutUp),
        (&newer, &out, &whole, Wish::CutUp),
        // Remote has written the file again, has a new one, or has moved the one that Local has moved out.
        (&newer, &[], &whole, Wish::Down),
        (&more, &[], &whole, Wish::Down),
        (&more, &out, &whole, Wish::Down),
        (&moved, &out, &whole, Wish::Down),
        // Local has the file from elsewhere.
        (&whole, &out, &whole[..2], Wish::Down),
    ] {
        is_wished(&rt, rt.alloc(), [r, l, s], want)?;
    }
    Ok(())
}

/// What is due at identity 1 where Remote has nothing yet.
fn due_at_first(
    rt: &impl Abort,
    alloc: Global,
    l: &[Row],
    s: &[Row],
) -> Result<Option<Verb>, Fail> {
    let r = Tree::new(alloc);
    let (l, s) = (tree(rt, alloc, l)?, tree(rt, alloc, s)?);
    match due(alloc, &r, &l, &s, &LastDigit, NodeId(1))? {
        Some(op) => Ok(Some(op.verb)),
        None => Ok(None),
    }
}

#[test]
fn what_is_legal_is_due(rt: HostRuntime) -> Result<(), Fail> {
    let alloc = rt.alloc();
    let (new, old) = (file(7), file(5));
    let holder: [Row; 1] = [(2, 0, b"f", 3)];
    assert_eq!(rt; due_at_first(&rt, alloc, &new, &[])?, Some(Verb::Up));
    assert_eq!(rt; due_at_first(&rt, alloc, &new, &holder)?, None);
    assert_eq!(rt; due_at_first(&rt, alloc, &old, &old)?, Some(Verb::CutDown));
    assert_eq!(rt; due_at_first(&rt, alloc, &[], &old)?, Some(Verb::Forget));
    assert_eq!(rt; due_at_first(&rt, alloc, &[], &[])?, None);
    Ok(())
}
