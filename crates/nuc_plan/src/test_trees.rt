//! Three trees for tests, and operations that are carried out in them.
ghost use Rattle.std.specs.Prelude.{◌≡◌, ◌==◌, ◌%◌, IsTrue, IfOk, IfSome};
ghost use Rattle.std.specs.Option.{option_copied};
ghost use Rattle.nuc_base.specs.Kinds.{FitsKind};
ghost use Rattle.nuc_base.specs.Trees.{OneKind, WellFormed};

use crate::{Plan, plan};
use nuc_base::{Change, Hashes, Kind, Name, Node, NodeId, Place, TreeLike, Ver};
use nuc_class::{Op, Verb, value_eq};
use nuc_tree::Tree;
use std::alloc::Global;
use std::process::Abort;
use std::test::Fail;

/// Contents that are as their versions' last digits.
struct LastDigit;

impl Hashes for LastDigit {
    ghost same = { λ _ a b. a % 10 == b % 10 };

    fn same(&self, a: Ver, b: Ver) -> bool {
        a.0 % 10 == b.0 % 10
    }
}

/// An identity with its parent, its name, its version and its bit: a folder for version 0, else a file.
pub(crate) type Row = (u64, u64, &'static [u8], u64, bool);

/// The tree with these nodes, parents first.
pub(crate) fn tree(rt: &impl Abort, alloc: Global, rows: &[Row]) -> Result<Tree, Fail>
    ensures { IfOk result (λ tree. WellFormed tree.nodes) }
{
    let mut tree = Tree::new(alloc);
    for &(id, parent, name, ver, bit) in rows {
        assert!(rt; id > 0 && (ver > 0 || !bit));
        let name = Name::new(alloc, name)?;
        let parent = NodeId(parent);
        let node = Node {
            place: Place { parent, name },
            kind: if ver == 0 { Kind::Folder } else { Kind::File },
            ver: Ver(ver),
            bit,
        };
        tree.put(NodeId(id), node)?;
    }
    Ok(tree)
}

pub(crate) fn are_equal(a: &Tree, b: &Tree) -> bool {
    for i in 0..a.len() {
        let Some(id) = a.nth(i) else { return false };
        if !value_eq(a.get(id), b.get(id)) {
            return false;
        }
    }
    a.len() == b.len()
}

/// Whether what stands in both trees has one kind.
fn agree(a: &Tree, b: &Tree) -> bool
    ensures { IsTrue result → OneKind a.now.nodes b.now.nodes }
{
    for i in 0..a.len() {
        let Some(id) = a.nth(i) else { return false };
        if !are_alike(a.get(id), b.get(id)) {
            return false;
        }
    }
    true
}

fn are_alike(a: Option<&Node>, b: Option<&Node>) -> bool
    ensures { IsTrue result → IfSome (option_copied a.entry) (λ n. IfSome (option_copied b.entry) (λ k. n.kind ≡ k.kind)) }
{
    match (a, b) {
        (Some(a), Some(b)) => a.kind == b.kind,
        _ => true,
    }
}

/// Remote, Local and Synced, and the next identity that nobody has.
#[derive(Drop)]
pub(crate) struct Trees {
    pub(crate) remote: Tree,
    pub(crate) local: Tree,
    pub(crate) synced: Tree,
    pub(crate) next: NodeId,
}

pub(crate) fn next_plan(rt: &impl Abort, alloc: Global, trees: &Trees) -> Result<Plan, Fail>
    requires remote { WellFormed trees.now.remote.nodes }
    requires local { WellFormed trees.now.local.nodes }
    requires synced { WellFormed trees.now.synced.nodes }
{
    let (r, l, s) = (&trees.remote, &trees.local, &trees.synced);
    assert!(rt; agree(r, l) && agree(r, s) && agree(l, s));
    Ok(plan(alloc, r, l, s, &LastDigit, trees.next)?)
}

fn fits_kind(node: &Node) -> bool
    ensures { IsTrue result → FitsKind node.now }
{
    match node.kind {
        Kind::Folder => node.ver.0 == 0 && !node.bit,
        Kind::File => node.ver.0 > 0,
    }
}

fn put(rt: &impl Abort, tree: &mut Tree, id: NodeId, node: Node) -> Result<(), Fail>
    requires { WellFormed tree.old.nodes }
    ensures { WellFormed tree.new.nodes }
{
    assert!(rt; id.0 > 0 && fits_kind(&node));
    tree.put(id, node)?;
    Ok(())
}

fn change(
    rt: &impl Abort,
    alloc: Global,
    tree: &mut Tree,
    id: NodeId,
    change: &Change,
) -> Result<(), Fail>
    requires { WellFormed tree.old.nodes }
    ensures { WellFormed tree.new.nodes }
{
    match change {
        Change::Keep => {}
        Change::Put(node) => put(rt, tree, id, node.copy(alloc)?)?,
        Change::Cut => {
            tree.cut(id)?;
        }
    }
    Ok(())
}

/// Gives the node of `own` the identity `id`: it makes room, and then the children come over.
fn adopt(
    rt: &impl Abort,
    alloc: Global,
    tree: &mut Tree,
    id: NodeId,
    own: NodeId,
    change: &Change,
) -> Result<(), Fail>
    requires { WellFormed tree.old.nodes }
    ensures { WellFormed tree.new.nodes }
{
    let Change::Put(node) = change else {
        return Err(Fail::new("an adoption without a node"));
    };
    let aside = Place {
        parent: NodeId(0),
        name: Name::new(alloc, b"aside")?,
    };
    put(rt, tree, own, node.moved_to(aside))?;
    put(rt, tree, id, node.copy(alloc)?)?;
    for _ in 0..tree.len() {
        if let Some(child) = tree.child(own, 0) {
            let mut node = tree
                .get(child)
                .expect(rt, "a child stands in the tree")
                .copy(alloc)?;
            node.place.parent = id;
            put(rt, tree, child, node)?;
        }
    }
    tree.cut(own)?;
    Ok(())
}

/// Carries out an operation in the three trees, once it is sure that it was planned over them.
fn carry_out(rt: &impl Abort, alloc: Global, trees: &mut Trees, op: &Op) -> Result<(), Fail>
    requires remote { WellFormed trees.old.remote.nodes }
    requires local { WellFormed trees.old.local.nodes }
    requires synced { WellFormed trees.old.synced.nodes }
    ensures remote { WellFormed trees.new.remote.nodes }
    ensures local { WellFormed trees.new.local.nodes }
    ensures synced { WellFormed trees.new.synced.nodes }
{
    assert!(rt; value_eq(op.old_local.as_ref(), trees.local.get(op.id)));
    assert!(rt; value_eq(op.old_synced.as_ref(), trees.synced.get(op.id)));
    change(rt, alloc, &mut trees.remote, op.id, &op.remote)?;
    match op.verb {
        Verb::Split => {
            change(rt, alloc, &mut trees.local, op.other, &op.local)?;
            trees.local.cut(op.id)?;
        }
        Verb::Adopt => adopt(rt, alloc, &mut trees.local, op.id, op.other, &op.local)?,
        _ => change(rt, alloc, &mut trees.local, op.id, &op.local)?,
    }
    change(rt, alloc, &mut trees.synced, op.id, &op.synced)
}

/// Carries all of them out, from the first to the last or the other way round.
pub(crate) fn carry_all(
    rt: &impl Abort,
    alloc: Global,
    trees: &mut Trees,
    ops: &[Op],
    back: bool,
) -> Result<(), Fail>
    requires remote { WellFormed trees.old.remote.nodes }
    requires local { WellFormed trees.old.local.nodes }
    requires synced { WellFormed trees.old.synced.nodes }
    ensures remote { WellFormed trees.new.remote.nodes }
    ensures local { WellFormed trees.new.local.nodes }
    ensures synced { WellFormed trees.new.synced.nodes }
{
    for i in 0..ops.len() {
        let at = if back { ops.len() - 1 - i } else { i };
        carry_out(rt, alloc, trees, &ops[at])?;
    }
    Ok(())
}
