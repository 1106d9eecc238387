//! Which operations are together, and what a batch takes, over small trees.
ghost use Rattle.std.specs.Prelude.{◌≡◌, ◌≤◌, ℕ, Some, All, IfOk};
ghost use Rattle.std.specs.FinMap.{get};
ghost use Rattle.nuc_base.specs.Kinds.{FitsKind};
ghost use Rattle.nuc_base.specs.Trees.{OneKind, WellFormed};
ghost use Rattle.nuc_safety.specs.Batch.{IsPossible};

use crate::{first_fit, together};
use nuc_base::{Change, Hashes, Kind, Name, Node, NodeId, Place, TreeLike, Ver};
use nuc_class::{Effect, Op, Verb, due};
use nuc_tree::Tree;
use std::alloc::Global;
use std::process::Abort;
use std::test::Fail;

/// No two versions have one content.
struct AllDiffer;

impl Hashes for AllDiffer {
    ghost use Rattle.std.specs.Prelude.{false};

    ghost same = { λ _ a b. false };

    fn same(&self, _a: Ver, _b: Ver) -> bool {
        false
    }
}

/// An identity, its parent and its name.
type Row = (u64, u64, &'static [u8]);

fn node(alloc: Global, kind: Kind, parent: u64, name: &[u8]) -> Result<Node, Fail>
    ensures { IfOk result (λ n. FitsKind n × (n.kind ≡ kind)) }
{
    let name = Name::new(alloc, name)?;
    let parent = NodeId(parent);
    Ok(Node {
        place: Place { parent, name },
        kind,
        ver: match kind {
            Kind::Folder => Ver(0),
            Kind::File => Ver(1),
        },
        bit: false,
    })
}

/// The tree with these folders, parents first.
fn tree(rt: &impl Abort, alloc: Global, rows: &[Row]) -> Result<Tree, Fail>
    ensures form { IfOk result (λ tree. WellFormed tree.nodes) }
    ensures folders { IfOk result (λ tree. (x : ℕ) (n : _) → get tree.nodes x ≡ Some n → n.kind ≡ Kind.Folder) }
{
    let mut tree = Tree::new(alloc);
    for &(id, parent, name) in rows {
        assert!(rt; id > 0);
        tree.put(NodeId(id), node(alloc, Kind::Folder, parent, name)?)?;
    }
    Ok(tree)
}

/// The operations that are due at the identities below `end`.
fn all_due(alloc: Global, r: &Tree, l: &Tree, s: &Tree, end: u64) -> Result<Vec<Op>, Fail>
    requires remote { WellFormed r.now.nodes }
    requires local { WellFormed l.now.nodes }
    requires synced { WellFormed s.now.nodes }
    requires kinds { OneKind r.now.nodes l.now.nodes }
    ensures { IfOk result (λ ops. All (IsPossible r.now.nodes l.now.nodes s.now.nodes) ops.items) }
{
    let mut ops = Vec::new(alloc);
    for id in 1..end {
        if let Some(op) = due(alloc, r, l, s, &AllDiffer, NodeId(id))? {
            ops.push(op)?;
        }
    }
    Ok(ops)
}

fn ids(alloc: Global, ops: &[Op]) -> Result<Vec<u64>, Fail> {
    let mut ids = Vec::new(alloc);
    for op in ops {
        ids.push(op.id.0)?;
    }
    Ok(ids)
}

/// Whether just these are due, and the batch takes just those.
fn takes(
    alloc: Global,
    r: &Tree,
    l: &Tree,
    s: &Tree,
    due: &[u64],
    taken: &[u64],
) -> Result<bool, Fail>
    requires remote { WellFormed r.now.nodes }
    requires local { WellFormed l.now.nodes }
    requires synced { WellFormed s.now.nodes }
    requires kinds { OneKind r.now.nodes l.now.nodes }
{
    let ops = all_due(alloc, r, l, s, 100)?;
    let found = ids(alloc, &ops)?;
    let batch = first_fit(alloc, r, l, s, ops)?;
    Ok(found.as_slice() == due && ids(alloc, batch.as_slice())?.as_slice() == taken)
}

/// The same, of trees of folders.
fn folders_take(
    rt: &impl Abort,
    alloc: Global,
    trees: [&[Row]; 3],
    due: &[u64],
    taken: &[u64],
) -> Result<bool, Fail> {
    let [r, l, s] = trees;
    let r = tree(rt, alloc, r)?;
    let l = tree(rt, alloc, l)?;
    let s = tree(rt, alloc, s)?;
    takes(alloc, &r, &l, &s, due, taken)
}

const A: Row = (1, 0, b"A");

const Y: Row = (2, 0, b"Y");

const X: Row = (3, 0, b"X");

const Z: Row = (4, 0, b"Z");

const A_IN_X: Row = (1, 3, b"A");

const Y_IN_A: Row = (2, 1, b"Y");

const X_IN_Y: Row = (3, 2, b"X");

const X_IN_Z: Row = (3, 4, b"X");

/// The server has X in Z and A in X, the folder has Y in A, and what was synced is X in Y.
#[test]
fn moves_that_would_close_a_ring(rt: HostRuntime) -> Result<(), Fail> {
    let alloc = rt.alloc();
    let remote = [Y, Z, X_IN_Z, A_IN_X, (5, 0, b"N".as_slice())];
    let (local, synced) = ([A, Y_IN_A, X, Z], [A, Y, X_IN_Y, Z]);
    let trees = [&remote[..4], &local, &synced];
    assert!(rt; folders_take(&rt, alloc, trees, &[1, 2, 3], &[1])?);
    // A later one that is together with what was taken is taken too.
    let trees = [&remote[..], &local, &synced];
    assert!(rt; folders_take(&rt, alloc, trees, &[1, 2, 3, 5], &[1, 5])?);
    Ok(())
}

/// The same three trees once A is in X everywhere, and then once X is in Z.
#[test]
fn moves_go_on_one_by_one(rt: HostRuntime) -> Result<(), Fail> {
    let alloc = rt.alloc();
    let remote = [Y, Z, X_IN_Z, A_IN_X];
    let (local, synced) = ([X, Z, A_IN_X, Y_IN_A], [Y, X_IN_Y, A_IN_X, Z]);
    assert!(rt; folders_take(&rt, alloc, [&remote, &local, &synced], &[3], &[3])?);
    let (local, synced) = ([Z, X_IN_Z, A_IN_X, Y_IN_A], [Y, Z, X_IN_Z, A_IN_X]);
    assert!(rt; folders_take(&rt, alloc, [&remote, &local, &synced], &[2], &[2])?);
    let same = [Z, X_IN_Z, A_IN_X, Y_IN_A];
    assert!(rt; folders_take(&rt, alloc, [&same; 3], &[], &[])?);
    Ok(())
}

/// The server has deleted a folder and the file in it: the file goes in the folder first.
#[test]
fn a_folder_goes_after_its_file(rt: HostRuntime) -> Result<(), Fail> {
    let alloc = rt.alloc();
    let remote = Tree::new(alloc);
    let rows = [(1, 0, b"d".as_slice())];
    let (mut local, mut synced) = (tree(&rt, alloc, &rows)?, tree(&rt, alloc, &rows)?);
    local.put(NodeId(2), node(alloc, Kind::File, 1, b"a")?)?;
    synced.put(NodeId(2), node(alloc, Kind::File, 1, b"a")?)?;
    assert!(rt; takes(alloc, &remote, &local, &synced, &[2], &[2])?);
    local.cut(NodeId(2))?;
    synced.cut(NodeId(2))?;
    assert!(rt; takes(alloc, &remote, &local, &synced, &[1], &[1])?);
    Ok(())
}

/// This many files.
fn files(alloc: Global, count: u8) -> Result<Tree, Fail>
    requires { count ≤ 60 }
    ensures form { IfOk result (λ tree. WellFormed tree.nodes) }
    ensures files { IfOk result (λ tree. (x : ℕ) (n : _) → get tree.nodes x ≡ Some n → n.kind ≡ Kind.File) }
{
    let mut tree = Tree::new(alloc);
    for i in 0..count {
        let file = node(alloc, Kind::File, 0, &[b'A' + i])?;
        tree.put(NodeId(1 + i as u64), file)?;
    }
    Ok(tree)
}

/// Of 33 files that only the folder has, a batch takes 32; once the server has these, the next takes the last.
#[test]
fn a_batch_is_full_at_32(rt: HostRuntime) -> Result<(), Fail> {
    let alloc = rt.alloc();
    let local = files(alloc, 33)?;
    let empty = Tree::new(alloc);
    let ops = all_due(alloc, &empty, &local, &empty, 100)?;
    assert_eq!(rt; ops.len(), 33);
    let batch = first_fit(alloc, &empty, &local, &empty, ops)?;
    assert_eq!(rt; batch.len(), 32);
    assert!(rt; batch.get(31).is_some_and(|op| op.id == NodeId(32)));
    let most = files(alloc, 32)?;
    assert!(rt; takes(alloc, &most, &local, &most, &[33], &[33])?);
    Ok(())
}

/// What an operation writes in one tree: its identity, and the folder that it puts there, or none where it cuts.
type Write = (u64, Option<(u64, &'static [u8])>);

fn change(alloc: Global, (_, put): Write) -> Result<Change, Fail> {
    Ok(match put {
        Some((parent, name)) => Change::Put(node(alloc, Kind::Folder, parent, name)?),
        None => Change::Cut,
    })
}

/// An operation that writes in the tree of this number alone, from 0 for Remote to 2 for Synced.
fn op(alloc: Global, tree: usize, write: Write) -> Result<Op, Fail> {
    let mut op = Op {
        number: 0,
        verb: Verb::Down,
        id: NodeId(write.0),
        other: NodeId(0),
        remote: Change::Keep,
        local: Change::Keep,
        synced: Change::Keep,
        old_local: None,
        old_synced: None,
        base: 0,
        effect: Effect::Disk,
    };
    let change = change(alloc, write)?;
    match tree {
        0 => op.remote = change,
        1 => op.local = change,
        _ => op.synced = change,
    }
    Ok(op)
}

/// Whether the two are together, whichever is named first, in the tree of this number.
fn fit(
    alloc: Global,
    trees: [&Tree; 3],
    number: usize,
    a: Write,
    b: Write,
) -> Result<[bool; 2], Fail> {
    let (a, b) = (op(alloc, number, a)?, op(alloc, number, b)?);
    let [r, l, s] = trees;
    Ok([together(r, l, s, &a, &b), together(r, l, s, &b, &a)])
}

/// 1 `a` at the root with 2 `b` in it, and 3 `c` and 4 `d` at the root.
const ROWS: [Row; 4] = [(1, 0, b"a"), (2, 1, b"b"), (3, 0, b"c"), (4, 0, b"d")];

#[test]
fn pairs(rt: HostRuntime) -> Result<(), Fail> {
    let full = tree(&rt, rt.alloc(), &ROWS)?;
    let empty = Tree::new(rt.alloc());
    for (a, b, want) in [
        // One place, or two.
        (
            (5, Some((0, b"n".as_slice()))),
            (6, Some((0, b"n".as_slice()))),
            false,
        ),
        ((5, Some((0, b"n"))), (6, Some((0, b"m"))), true),
        ((5, Some((0, b"n"))), (6, Some((1, b"n"))), true),
        // Below what moves, or only gets another name.
        ((3, Some((2, b"c"))), (1, Some((4, b"a"))), false),
        ((3, Some((2, b"c"))), (1, Some((0, b"e"))), true),
        // Into what is cut, or beside it.
        ((5, Some((3, b"n"))), (3, None), false),
        ((5, Some((1, b"n"))), (2, None), true),
        ((2, None), (1, None), true),
        // One identity.
        ((3, Some((0, b"n"))), (3, Some((0, b"m"))), false),
    ] {
        assert!(rt; fit(rt.alloc(), [&full, &empty, &empty], 0, a, b)? == [want; 2]);
        assert!(rt; fit(rt.alloc(), [&empty, &full, &empty], 1, a, b)? == [want; 2]);
        assert!(rt; fit(rt.alloc(), [&empty, &empty, &full], 2, a, b)? == [want; 2]);
    }
    Ok(())
}

#[test]
fn two_trees(rt: HostRuntime) -> Result<(), Fail> {
    let tree = Tree::new(rt.alloc());
    let new = Some((0, b"n".as_slice()));
    let a = op(rt.alloc(), 0, (5, new))?;
    let b = op(rt.alloc(), 1, (6, new))?;
    assert!(rt; together(&tree, &tree, &tree, &a, &b));
    let b = op(rt.alloc(), 1, (5, new))?;
    assert!(rt; !together(&tree, &tree, &tree, &a, &b));
    Ok(())
}
