ghost use Rattle.std.specs.Prelude.{◌≡◌, ◌==◌, ◌%◌, IfOk};
ghost use Rattle.nuc_base.specs.Trees.{WellFormed};

use crate::{free_name, mend};
use nuc_base::{Change, Hashes, Kind, Name, Node, NodeId, Place, TreeLike, Ver};
use nuc_class::{Effect, Op, Verb};
use nuc_tree::Tree;
use std::alloc::Global;
use std::process::Abort;
use std::test::Fail;

/// Contents that are as their versions' last digits.
struct LastDigit;

impl Hashes for LastDigit {
    ghost same = { λ _ a b. a % 10 == b % 10 };

    fn same(&self, a: Ver, b: Ver) -> bool {
        a.0 % 10 == b.0 % 10
    }
}

/// An identity with its parent, its name, its version and its bit: a folder for version 0, else a file.
type Row = (u64, u64, &'static [u8], u64, bool);

/// The tree with these nodes, parents first.
fn tree(rt: &impl Abort, alloc: Global, rows: &[Row]) -> Result<Tree, Fail>
    ensures { IfOk result (λ tree. WellFormed tree.nodes) }
{
    let mut tree = Tree::new(alloc);
    for &(id, parent, name, ver, bit) in rows {
        assert!(rt; id > 0 && (ver > 0 || !bit));
        let name = Name::new(alloc, name)?;
        let parent = NodeId(parent);
        let node = Node {
            place: Place { parent, name },
            kind: if ver == 0 { Kind::Folder } else { Kind::File },
            ver: Ver(ver),
            bit,
        };
        tree.put(NodeId(id), node)?;
    }
    Ok(tree)
}

/// What a change is to be: none, a put of a node with this parent, name, version and bit, or a cut.
#[derive(Clone, Copy)]
enum Is {
    Keep,
    Put(u64, &'static [u8], u64, bool),
    Cut,
}

fn is_change(change: &Change, want: Is) -> bool {
    match (change, want) {
        (Change::Keep, Is::Keep) | (Change::Cut, Is::Cut) => true,
        (Change::Put(node), Is::Put(parent, name, ver, bit)) => {
            node.place.parent.0 == parent
                && node.place.name.bytes() == name
                && node.ver.0 == ver
                && node.bit == bit
        }
        _ => false,
    }
}

/// What a mend is to be: its verb, its identities, its effect, and what it does in Remote, Local and Synced.
type Want = (Verb, u64, u64, Effect, [Is; 3]);

fn is_op(op: &Op, want: Want) -> bool {
    let (verb, id, other, effect, [remote, local, synced]) = want;
    op.verb == verb
        && op.id.0 == id
        && op.other.0 == other
        && op.effect == effect
        && is_change(&op.remote, remote)
        && is_change(&op.local, local)
        && is_change(&op.synced, synced)
}

fn is_wanted(op: Option<&Op>, want: Option<Want>) -> bool {
    match (op, want) {
        (Some(op), Some(want)) => is_op(op, want),
        (None, None) => true,
        _ => false,
    }
}

/// Whether the mend of the three trees, with 9 as the next identity, is this.
fn is_mend(
    rt: &impl Abort,
    alloc: Global,
    trees: [&[Row]; 3],
    want: Option<Want>,
) -> Result<(), Fail> {
    is_mend_with(rt, alloc, 9, trees, want)
}

/// The same with another next identity.
fn is_mend_with(
    rt: &impl Abort,
    alloc: Global,
    next: u64,
    trees: [&[Row]; 3],
    want: Option<Want>,
) -> Result<(), Fail> {
    let [r, l, s] = trees;
    let (r, l, s) = (
        tree(rt, alloc, r)?,
        tree(rt, alloc, l)?,
        tree(rt, alloc, s)?,
    );
    let found = mend(alloc, &r, &l, &s, &LastDigit, NodeId(next))?;
    assert!(rt; is_wanted(found.as_ref(), want));
    Ok(())
}

#[test]
fn evicts_what_has_the_place(rt: HostRuntime) -> Result<(), Fail> {
    let old = [(1, 0, b"a".as_slice(), 5, false), (2, 0, b"b", 6, false)];
    let swapped = [(1, 0, b"b".as_slice(), 5, false), (2, 0, b"a", 6, true)];
    let free = b"b (conflicted copy)".as_slice();
    // Swapped on the server: the one in the way leaves its place in Local and Synced.
    is_mend(
        &rt,
        rt.alloc(),
        [&swapped, &old, &old],
        Some((
            Verb::Evict,
            2,
            0,
            Effect::Disk,
            [
                Is::Keep,
                Is::Put(0, free, 6, false),
                Is::Put(0, free, 6, false),
            ],
        )),
    )?;
    // Swapped in the folder: it leaves its place at the server.
    is_mend(
        &rt,
        rt.alloc(),
        [&old, &swapped, &old],
        Some((
            Verb::Evict,
            2,
            0,
            Effect::Commit,
            [
                Is::Put(0, free, 6, false),
                Is::Keep,
                Is::Put(0, free, 6, false),
            ],
        )),
    )
}

/// The server has deleted a folder and given its place to the file that was in it.
#[test]
fn evicts_the_folder_that_a_file_leaves(rt: HostRuntime) -> Result<(), Fail> {
    let remote = [(2, 0, b"n".as_slice(), 1, false)];
    let old = [
        (1, 0, b"n".as_slice(), 0, false),
        (2, 1, b"c".as_slice(), 1, false),
    ];
    let free = Is::Put(0, b"n (conflicted copy)", 0, false);
    let want = (Verb::Evict, 1, 0, Effect::Disk, [Is::Keep, free, free]);
    is_mend(&rt, rt.alloc(), [&remote, &old, &old], Some(want))
}

#[test]
fn moves_and_brings_folders_back(rt: HostRuntime) -> Result<(), Fail> {
    let alloc = rt.alloc();
    let (a, b) = (
        (1, 0, b"A".as_slice(), 0, false),
        (2, 0, b"B".as_slice(), 0, false),
    );
    // Each below the other.
    is_mend(
        &rt,
        alloc,
        [
            &[b, (1, 2, b"A", 0, false)],
            &[a, (2, 1, b"B", 0, false)],
            &[a, b],
        ],
        Some((
            Verb::Unmove,
            2,
            0,
            Effect::Disk,
            [Is::Keep, Is::Put(0, b"B", 0, false), Is::Keep],
        )),
    )?;
    let (m, c) = (
        (1, 0, b"M".as_slice(), 0, false),
        (2, 1, b"C".as_slice(), 0, false),
    );
    let x = (3, 0, b"X".as_slice(), 0, false);
    let (r, s) = ([m, c, (3, 2, b"X", 0, false)], [m, c, x]);
    let in_x = (2, 3, b"C".as_slice(), 0, false);
    // The folder that is missing comes back first, then the one below it, and then nothing is in the way.
    is_mend(
        &rt,
        alloc,
        [&r, &[x, in_x], &s],
        Some((
            Verb::Revive,
            1,
            0,
            Effect::Disk,
            [Is::Keep, Is::Put(0, b"M", 0, false), Is::Keep],
        )),
    )?;
    is_mend(
        &rt,
        alloc,
        [&r, &[m, x, in_x], &s],
        Some((
            Verb::Unmove,
            2,
            0,
            Effect::Disk,
            [Is::Keep, Is::Put(1, b"C", 0, false), Is::Keep],
        )),
    )?;
    is_mend(&rt, alloc, [&r, &[m, x, c], &s], None)
}

#[test]
fn evicts_what_has_the_folders_place(rt: HostRuntime) -> Result<(), Fail> {
    let (m, c) = (
        (1, 0, b"M".as_slice(), 0, false),
        (2, 1, b"C".as_slice(), 0, false),
    );
    let x = (3, 0, b"X".as_slice(), 0, false);
    is_mend(
        &rt,
        rt.alloc(),
        [
            &[m, c, (3, 2, b"X", 0, false)],
            &[x, (2, 3, b"C", 0, false), (5, 0, b"M", 6, true)],
            &[m, c, x],
        ],
        Some((
            Verb::Evict,
            5,
            0,
            Effect::Disk,
            [
                Is::Keep,
                Is::Put(0, b"M (conflicted copy)", 6, true),
                Is::Keep,
            ],
        )),
    )
}

#[test]
fn serves_the_topmost_first(rt: HostRuntime) -> Result<(), Fail> {
    let folder = (4, 0, b"d".as_slice(), 0, false);
    let old = [
        folder,
        (1, 4, b"e".as_slice(), 5, false),
        (5, 4, b"f", 6, false),
        (3, 0, b"h", 7, false),
        (2, 0, b"g", 8, false),
    ];
    let swapped = [
        folder,
        (1, 4, b"f".as_slice(), 5, false),
        (5, 4, b"e", 6, false),
        (3, 0, b"g", 7, false),
        (2, 0, b"h", 8, false),
    ];
    let free = Is::Put(0, b"h (conflicted copy)", 7, false);
    is_mend(
        &rt,
        rt.alloc(),
        [&swapped, &old, &old],
        Some((Verb::Evict, 3, 0, Effect::Disk, [Is::Keep, free, free])),
    )?;
    is_mend(
        &rt,
        rt.alloc(),
        [&old, &swapped, &old],
        Some((Verb::Evict, 3, 0, Effect::Commit, [free, Is::Keep, free])),
    )
}

#[test]
fn splits_a_file(rt: HostRuntime) -> Result<(), Fail> {
    let r = [(1, 0, b"f".as_slice(), 2, false)];
    let l = [(1, 0, b"f".as_slice(), 3, true)];
    let s = [(1, 0, b"f".as_slice(), 1, false)];
    let copy = Is::Put(0, b"f (conflicted copy)", 3, true);
    for (s, synced) in [(&s[..], Is::Cut), (&[][..], Is::Keep)] {
        let want = (Verb::Split, 1, 2, Effect::Disk, [Is::Keep, copy, synced]);
        is_mend_with(&rt, rt.alloc(), 2, [&r, &l, s], Some(want))?;
    }
    Ok(())
}

#[test]
fn makes_one_of_two(rt: HostRuntime) -> Result<(), Fail> {
    let alloc = rt.alloc();
    for (ver, own, bit, one) in [
        (0, 0, false, true),
        (7, 17, true, true),
        (7, 7, false, true),
        (7, 8, false, false),
        (0, 8, false, false),
    ] {
        let r = [(1, 0, b"d".as_slice(), ver, false)];
        let l = [(2, 0, b"d".as_slice(), own, bit)];
        let want = if one {
            let local = Is::Put(0, b"d", ver, bit);
            (
                Verb::Adopt,
                1,
                2,
                Effect::Nothing,
                [Is::Keep, local, Is::Keep],
            )
        } else {
            let local = Is::Put(0, b"d (conflicted copy)", own, bit);
            (Verb::Evict, 2, 0, Effect::Disk, [Is::Keep, local, Is::Keep])
        };
        is_mend(&rt, alloc, [&r, &l, &[]], Some(want))?;
    }
    Ok(())
}

#[test]
fn names_are_free(rt: HostRuntime) -> Result<(), Fail> {
    let alloc = rt.alloc();
    for (name, taken, want) in [
        (
            b".bashrc".as_slice(),
            b".bashrc".as_slice(),
            b".bashrc (conflicted copy)".as_slice(),
        ),
        (b"a.txt", b"a.txt", b"a (conflicted copy).txt"),
        (
            b"a.txt",
            b"a (conflicted copy).txt",
            b"a (conflicted copy 2).txt",
        ),
        (b"a.", b"b", b"a. (conflicted copy)"),
    ] {
        let (other, own) = (
            tree(&rt, alloc, &[])?,
            tree(&rt, alloc, &[(1, 0, taken, 0, false)])?,
        );
        let name = Name::new(alloc, name)?;
        for i in 0..3 {
            let [r, l, s] = [0, 1, 2].map(|at| if at == i { &own } else { &other });
            let free = free_name(alloc, r, l, s, NodeId(0), &name)?;
            assert_eq!(rt; free.bytes(), want);
            let below = free_name(alloc, r, l, s, NodeId(1), &name)?;
            let first = name.conflicted_copy(alloc, 1)?;
            assert!(rt; below.same(&first));
        }
    }
    Ok(())
}

/// The tree of files with the first candidates of a name, so many of them.
fn copies(rt: &impl Abort, alloc: Global, name: &Name, count: u64) -> Result<Tree, Fail>
    ensures { IfOk result (λ tree. WellFormed tree.nodes) }
{
    let mut tree = Tree::new(alloc);
    for number in 0..count {
        let name = name.conflicted_copy(alloc, number + 1)?;
        let parent = NodeId(0);
        let node = Node {
            place: Place { parent, name },
            kind: Kind::File,
            ver: Ver(1),
            bit: false,
        };
        assert!(rt; number < 100);
        tree.put(NodeId(number + 1), node)?;
    }
    Ok(tree)
}

#[test]
fn names_count_up(rt: HostRuntime) -> Result<(), Fail> {
    let alloc = rt.alloc();
    for (name, count, want) in [
        (
            b"a.txt".as_slice(),
            1,
            b"a (conflicted copy 2).txt".as_slice(),
        ),
        (b"a.txt", 8, b"a (conflicted copy 9).txt"),
        (b"a.txt", 9, b"a (conflicted copy 10).txt"),
        (b"archive.tar.gz", 9, b"archive.tar (conflicted copy 10).gz"),
        (b"..a", 8, b". (conflicted copy 9).a"),
        (b"x.y.", 1, b"x.y. (conflicted copy 2)"),
        (
            b"a.eeeeeeeeeeeeeeeee",
            1,
            b"a.eeeeeeeeeeeeeeeee (conflicted copy 2)",
        ),
        (
            b"a (conflicted copy 2)",
            0,
            b"a (conflicted copy 2) (conflicted copy)",
        ),
    ] {
        let name = Name::new(alloc, name)?;
        let (none, some) = (Tree::new(alloc), copies(&rt, alloc, &name, count)?);
        let free = free_name(alloc, &none, &some, &none, NodeId(0), &name)?;
        assert_eq!(rt; free.bytes(), want);
    }
    Ok(())
}

/// A name of 255 bytes is cut before the character that would pass the end.
#[test]
fn long_names_are_cut(rt: HostRuntime) -> Result<(), Fail> {
    let alloc = rt.alloc();
    let mut bytes = [b'a'; 255];
    bytes[236..].copy_from_slice("ébbbbbbbbbbbbbbbbb".as_bytes());
    let name = Name::new(alloc, &bytes)?;
    let none = Tree::new(alloc);
    let free = free_name(alloc, &none, &none, &none, NodeId(0), &name)?;
    let mut want = [b'a'; 254];
    want[236..].copy_from_slice(b" (conflicted copy)");
    assert_eq!(rt; free.bytes(), want.as_slice());
    Ok(())
}
