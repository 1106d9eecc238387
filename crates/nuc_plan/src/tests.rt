//! Plans over small trees, each carried out before the next is asked for.
ghost use Rattle.std.specs.Prelude.{◌≤◌, IfOk};
ghost use Rattle.nuc_base.specs.Trees.{WellFormed};

use crate::Plan;
use crate::test_trees::{Row, Trees, are_equal, carry_all, next_plan, tree};
use nuc_base::{Kind, Name, Node, NodeId, Place, TreeLike, Ver};
use nuc_class::{Effect, Op, Verb};
use nuc_tree::Tree;
use std::alloc::Global;
use std::process::Abort;
use std::slice;
use std::test::Fail;

/// What a plan is to be.
#[derive(Clone, Copy, Debug, PartialEq, Eq)]
enum Case {
    Empty,
    Booked,
    Batch,
    Mend,
}

/// A plan as it is to be: the verb and the identity of each of its operations.
type Want = (Case, &'static [(Verb, u64)]);

fn parts(plan: &Plan) -> (Case, &[Op]) {
    match plan {
        Plan::Empty => (Case::Empty, &[]),
        Plan::Booked(op) => (Case::Booked, slice::from_ref(op)),
        Plan::Batch(ops) => (Case::Batch, ops.as_slice()),
        Plan::Mend(op) => (Case::Mend, slice::from_ref(op)),
    }
}

fn are_wanted(ops: &[Op], want: &[(Verb, u64)]) -> bool {
    if ops.len() != want.len() {
        return false;
    }
    for (i, op) in ops.iter().enumerate() {
        if op.verb != want[i].0 || op.id.0 != want[i].1 {
            return false;
        }
    }
    true
}

/// Whether these are the plans, one after another, whatever the order in which each is carried out, and whether they make
/// all three trees this one.
fn come_together(
    rt: &impl Abort,
    alloc: Global,
    start: [&[Row]; 3],
    next: u64,
    want: &[Want],
    end: &[Row],
) -> Result<(), Fail> {
    for back in [false, true] {
        come_together_so(rt, alloc, start, next, want, end, back)?;
    }
    Ok(())
}

fn come_together_so(
    rt: &impl Abort,
    alloc: Global,
    start: [&[Row]; 3],
    next: u64,
    want: &[Want],
    end: &[Row],
    back: bool,
) -> Result<(), Fail> {
    let [r, l, s] = start;
    let mut trees = Trees {
        remote: tree(rt, alloc, r)?,
        local: tree(rt, alloc, l)?,
        synced: tree(rt, alloc, s)?,
        next: NodeId(next),
    };
    for &(what, ops) in want {
        let plan = next_plan(rt, alloc, &trees)?;
        let (found, planned) = parts(&plan);
        assert_eq!(rt; found, what);
        assert!(rt; are_wanted(planned, ops));
        carry_all(rt, alloc, &mut trees, planned, back)?;
    }
    let last = next_plan(rt, alloc, &trees)?;
    assert_eq!(rt; parts(&last).0, Case::Empty);
    let end = tree(rt, alloc, end)?;
    assert!(rt; are_equal(&trees.remote, &end));
    assert!(rt; are_equal(&trees.local, &end));
    assert!(rt; are_equal(&trees.synced, &end));
    Ok(())
}

const fn folder(id: u64, parent: u64, name: &'static [u8]) -> Row {
    (id, parent, name, 0, false)
}

const fn file(id: u64, name: &'static [u8], ver: u64) -> Row {
    (id, 0, name, ver, false)
}

/// Two folders that come into each other: one goes first, and what stands above it follows.
#[test]
fn moves_that_would_close_a_cycle(rt: HostRuntime) -> Result<(), Fail> {
    let (x, z) = (folder(3, 2, b"X"), folder(4, 0, b"Z"));
    let (a, y) = (folder(1, 0, b"A"), folder(2, 0, b"Y"));
    let (below_x, below_z, below_a) = (folder(1, 3, b"A"), folder(3, 4, b"X"), folder(2, 1, b"Y"));
    come_together(
        &rt,
        rt.alloc(),
        [
            &[y, z, below_z, below_x],
            &[a, folder(3, 0, b"X"), z, below_a],
            &[a, y, z, x],
        ],
        9,
        &[
            (Case::Batch, &[(Verb::Down, 1)]),
            (Case::Batch, &[(Verb::Down, 3)]),
            (Case::Batch, &[(Verb::Up, 2)]),
        ],
        &[z, below_z, below_x, below_a],
    )
}

#[test]
fn a_folder_goes_after_what_is_in_it(rt: HostRuntime) -> Result<(), Fail> {
    let whole = [folder(1, 0, b"d"), (2, 1, b"a".as_slice(), 1, false)];
    come_together(
        &rt,
        rt.alloc(),
        [&[], &whole, &whole],
        9,
        &[
            (Case::Batch, &[(Verb::CutDown, 2)]),
            (Case::Batch, &[(Verb::CutDown, 1)]),
        ],
        &[],
    )?;
    come_together(
        &rt,
        rt.alloc(),
        [&whole, &[], &whole],
        9,
        &[
            (Case::Batch, &[(Verb::CutUp, 2)]),
            (Case::Batch, &[(Verb::CutUp, 1)]),
        ],
        &[],
    )
}

#[test]
fn what_both_sides_deleted_is_forgotten(rt: HostRuntime) -> Result<(), Fail> {
    come_together(
        &rt,
        rt.alloc(),
        [&[], &[], &[file(1, b"a", 1), file(2, b"b", 2)]],
        9,
        &[
            (Case::Booked, &[(Verb::Forget, 1)]),
            (Case::Booked, &[(Verb::Forget, 2)]),
        ],
        &[],
    )
}

/// A record step goes before what is carried out in the folder or at the server, also where its identity is greater.
#[test]
fn record_steps_go_first(rt: HostRuntime) -> Result<(), Fail> {
    let both = [file(1, b"a", 7), file(3, b"c", 8)];
    come_together(
        &rt,
        rt.alloc(),
        [
            &[file(3, b"c", 8)],
            &[file(1, b"a", 7), file(3, b"c", 8)],
            &[file(2, b"b", 5)],
        ],
        9,
        &[
            (Case::Booked, &[(Verb::Forget, 2)]),
            (Case::Booked, &[(Verb::Down, 3)]),
            (Case::Batch, &[(Verb::Up, 1)]),
        ],
        &both,
    )
}

/// What can be carried out goes before a mend.
#[test]
fn names_that_were_swapped(rt: HostRuntime) -> Result<(), Fail> {
    let old = [file(1, b"a", 5), file(2, b"b", 6)];
    let swapped = [file(1, b"b", 5), file(2, b"a", 6)];
    come_together(
        &rt,
        rt.alloc(),
        [&swapped, &old, &old],
        9,
        &[
            (Case::Mend, &[(Verb::Evict, 2)]),
            (Case::Batch, &[(Verb::Down, 1)]),
            (Case::Batch, &[(Verb::Down, 2)]),
        ],
        &swapped,
    )?;
    let swapped = [file(1, b"b", 5), file(2, b"a", 6), file(3, b"c", 7)];
    come_together(
        &rt,
        rt.alloc(),
        [&swapped, &old, &old],
        9,
        &[
            (Case::Batch, &[(Verb::Down, 3)]),
            (Case::Mend, &[(Verb::Evict, 2)]),
            (Case::Batch, &[(Verb::Down, 1)]),
            (Case::Batch, &[(Verb::Down, 2)]),
        ],
        &swapped,
    )
}

#[test]
fn folders_that_moved_into_each_other(rt: HostRuntime) -> Result<(), Fail> {
    let (a, b) = (folder(1, 0, b"A"), folder(2, 0, b"B"));
    let end = [b, folder(1, 2, b"A")];
    come_together(
        &rt,
        rt.alloc(),
        [&end, &[a, folder(2, 1, b"B")], &[a, b]],
        9,
        &[
            (Case::Mend, &[(Verb::Unmove, 2)]),
            (Case::Batch, &[(Verb::Down, 1)]),
        ],
        &end,
    )
}

#[test]
fn a_folder_comes_back_for_what_moved_into_it(rt: HostRuntime) -> Result<(), Fail> {
    let (m, c, x) = (folder(1, 0, b"M"), folder(2, 1, b"C"), folder(3, 0, b"X"));
    let end = [m, c, folder(3, 2, b"X")];
    come_together(
        &rt,
        rt.alloc(),
        [&end, &[x, folder(2, 3, b"C")], &[m, c, x]],
        9,
        &[
            (Case::Mend, &[(Verb::Revive, 1)]),
            (Case::Mend, &[(Verb::Unmove, 2)]),
            (Case::Batch, &[(Verb::Down, 3)]),
        ],
        &end,
    )
}

#[test]
fn two_contents_make_a_copy(rt: HostRuntime) -> Result<(), Fail> {
    come_together(
        &rt,
        rt.alloc(),
        [
            &[file(1, b"f", 2)],
            &[file(1, b"f", 3)],
            &[file(1, b"f", 1)],
        ],
        2,
        &[
            (Case::Mend, &[(Verb::Split, 1)]),
            (Case::Batch, &[(Verb::Down, 1), (Verb::Up, 2)]),
        ],
        &[file(1, b"f", 2), file(2, b"f (conflicted copy)", 3)],
    )
}

#[test]
fn folders_of_one_name_become_one(rt: HostRuntime) -> Result<(), Fail> {
    come_together(
        &rt,
        rt.alloc(),
        [&[folder(1, 0, b"d")], &[folder(2, 0, b"d")], &[]],
        3,
        &[
            (Case::Mend, &[(Verb::Adopt, 1)]),
            (Case::Booked, &[(Verb::Down, 1)]),
        ],
        &[folder(1, 0, b"d")],
    )?;
    // What is in the one that gets the other's number comes along.
    let inside = |parent| folder(3, parent, b"e");
    come_together(
        &rt,
        rt.alloc(),
        [&[folder(1, 0, b"d")], &[folder(2, 0, b"d"), inside(2)], &[]],
        4,
        &[
            (Case::Mend, &[(Verb::Adopt, 1)]),
            (Case::Booked, &[(Verb::Down, 1)]),
            (Case::Batch, &[(Verb::Up, 3)]),
        ],
        &[folder(1, 0, b"d"), inside(1)],
    )
}

/// A new content from the server and a bit set in the folder come together.
#[test]
fn a_content_and_a_bit_of_two_sides(rt: HostRuntime) -> Result<(), Fail> {
    let with_bit = |ver| (1, 0, b"f".as_slice(), ver, true);
    come_together(
        &rt,
        rt.alloc(),
        [&[file(1, b"f", 2)], &[with_bit(1)], &[file(1, b"f", 1)]],
        9,
        &[
            (Case::Batch, &[(Verb::Down, 1)]),
            (Case::Batch, &[(Verb::Up, 1)]),
        ],
        &[with_bit(2)],
    )
}

/// A bit that one side alone has set comes to the other, and that is all that is done.
#[test]
fn a_bit_of_one_side(rt: HostRuntime) -> Result<(), Fail> {
    let plain = [file(1, b"s", 1)];
    let with_bit = [(1, 0, b"s".as_slice(), 1, true)];
    come_together(
        &rt,
        rt.alloc(),
        [&with_bit, &plain, &plain],
        9,
        &[(Case::Batch, &[(Verb::Down, 1)])],
        &with_bit,
    )?;
    come_together(
        &rt,
        rt.alloc(),
        [&plain, &with_bit, &plain],
        9,
        &[(Case::Batch, &[(Verb::Up, 1)])],
        &with_bit,
    )
}

/// Where both sides have another bit than before, they have the same, so nothing but a note is made of it.
#[test]
fn a_bit_of_both_sides(rt: HostRuntime) -> Result<(), Fail> {
    let plain = [file(1, b"s", 1)];
    let with_bit = [(1, 0, b"s".as_slice(), 1, true)];
    come_together(
        &rt,
        rt.alloc(),
        [&with_bit, &with_bit, &plain],
        9,
        &[(Case::Booked, &[(Verb::Down, 1)])],
        &with_bit,
    )
}

/// A conflicted copy has the bit that the folder's file had.
#[test]
fn a_copy_keeps_its_bit(rt: HostRuntime) -> Result<(), Fail> {
    come_together(
        &rt,
        rt.alloc(),
        [
            &[file(1, b"f", 2)],
            &[(1, 0, b"f", 3, true)],
            &[file(1, b"f", 1)],
        ],
        2,
        &[
            (Case::Mend, &[(Verb::Split, 1)]),
            (Case::Batch, &[(Verb::Down, 1), (Verb::Up, 2)]),
        ],
        &[file(1, b"f", 2), (2, 0, b"f (conflicted copy)", 3, true)],
    )
}

/// The tree of this many files.
fn files(alloc: Global, count: u8) -> Result<Tree, Fail>
    requires { count ≤ 60 }
    ensures { IfOk result (λ tree. WellFormed tree.nodes) }
{
    let mut tree = Tree::new(alloc);
    for i in 0..count {
        let node = Node {
            place: Place {
                parent: NodeId(0),
                name: Name::new(alloc, &[b'A' + i])?,
            },
            kind: Kind::File,
            ver: Ver(1 + i as u64),
            bit: false,
        };
        tree.put(NodeId(1 + i as u64), node)?;
    }
    Ok(tree)
}

/// Whether the operations are uploads of the identities from this one on.
fn are_uploads_from(ops: &[Op], first: u64) -> bool {
    for (i, op) in ops.iter().enumerate() {
        if op.verb != Verb::Up
            || op.effect != Effect::Commit
            || op.id.0 as u128 != first as u128 + i as u128
        {
            return false;
        }
    }
    true
}

#[test]
fn new_files_go_up_32_at_a_time(rt: HostRuntime) -> Result<(), Fail> {
    let alloc = rt.alloc();
    let mut trees = Trees {
        remote: Tree::new(alloc),
        local: files(alloc, 33)?,
        synced: Tree::new(alloc),
        next: NodeId(34),
    };
    for (first, count) in [(1, 32), (33, 1)] {
        let plan = next_plan(&rt, alloc, &trees)?;
        let (found, ops) = parts(&plan);
        assert_eq!(rt; found, Case::Batch);
        assert_eq!(rt; ops.len(), count);
        assert!(rt; are_uploads_from(ops, first));
        carry_all(&rt, alloc, &mut trees, ops, false)?;
    }
    let last = next_plan(&rt, alloc, &trees)?;
    assert_eq!(rt; parts(&last).0, Case::Empty);
    assert!(rt; are_equal(&trees.remote, &files(alloc, 33)?));
    Ok(())
}
