ghost use Rattle.std.specs.Prelude.{◌≡◌, ◌≢◌, ◌<◌, IfSome, IsSomeAnd, None};
ghost use Rattle.std.specs.FinMap as map;
ghost use Rattle.nuc_base.specs.Kinds.{FitsKind};
ghost use Rattle.nuc_base.specs.Legal.{LegalCut, LegalPut};
ghost use Rattle.nuc_base.specs.Trees.{IsThere};
ghost use Rattle.nuc_observe.specs.Keys.{IsUnheld};
ghost use Rattle.nuc_undo.specs.Laid.{with_node};

use crate::Local;
use crate::trial::{Shape, node};
use nuc_base::{Node, NodeId, TreeLike};
use nuc_folder::Key;
use nuc_observe::Keys;
use nuc_tree::Tree;
use std::alloc::Global;
use std::process::Abort;

/// A folder with nothing in it.
pub(crate) fn fresh(alloc: Global) -> Local<Tree> {
    Local::of(alloc, Tree::new(alloc), Keys::new(alloc))
}

/// Sees that a node may come to an identity.
fn see_that_it_is_legal(rt: &impl Abort, local: &Local<Tree>, id: NodeId, node: &Node)
    requires { FitsKind node.now }
    ensures id { 0 < id.0 }
    ensures legal { LegalPut local.now.now.tree id.0 node.now }
{
    let tree = local.tree();
    assert!(rt; id.0 > 0);
    assert!(rt; tree.check_put(id, node).is_ok());
}

/// Sees that an identity isn't there.
pub(crate) fn see_that_it_is_new(rt: &impl Abort, local: &Local<Tree>, id: NodeId)
    ensures { map.get local.now.now.tree id.0 ≡ None }
{
    assert!(rt; local.tree().get(id).is_none());
}

/// Sees that an identity is there.
fn see_that_it_is_there(rt: &impl Abort, local: &Local<Tree>, id: NodeId)
    ensures { IsThere local.now.now.tree id.0 }
{
    if local.tree().get(id).is_none() {
        panic!(rt; "it isn't there")
    }
}

/// Sees that nobody has a key.
fn see_that_it_is_free(rt: &impl Abort, local: &Local<Tree>, key: Key)
    ensures key { 0 < key.0 }
    ensures free { IsUnheld local.now.now.keys key.0 }
{
    assert!(rt; key.0 > 0);
    if local.keys().id_of(key).is_some() {
        panic!(rt; "the key is another's")
    }
}

/// Sees that an identity may go.
fn see_that_it_may_go(rt: &impl Abort, local: &Local<Tree>, id: NodeId)
    ensures { LegalCut local.now.now.tree id.0 }
{
    let tree = local.tree();
    if tree.get(id).is_none() || tree.has_child(id) {
        panic!(rt; "it isn't there, or has children")
    }
}

pub(crate) fn add(
    rt: &impl Abort,
    alloc: Global,
    local: &mut Local<Tree>,
    id: u64,
    shape: Shape,
    key: u64,
) {
    let (id, key) = (NodeId(id), Key(key));
    let node = node(rt, alloc, shape);
    see_that_it_is_new(rt, local, id);
    see_that_it_is_legal(rt, local, id, &node);
    see_that_it_is_free(rt, local, key);
    assert!(rt; local.add(id, node, key).is_ok());
}

fn cut(rt: &impl Abort, local: &mut Local<Tree>, id: u64) {
    assert!(rt; local.reserve(1).is_ok());
    see_that_it_may_go(rt, local, NodeId(id));
    local.cut(NodeId(id));
}

/// Sees that a node may come to an identity, settles all, and lays the node by.
fn lay_by(rt: &impl Abort, alloc: Global, local: &mut Local<Tree>, id: NodeId, shape: Shape)
    ensures id { 0 < id.0 }
    ensures room { 1 < local.new.spare }
    ensures legal { IsSomeAnd (map.get local.new.laid 1) (λ node. LegalPut local.new.now.tree id.0 node) }
    ensures parent { IfSome (map.get local.new.laid 1) (λ node. node.place.parent.0 ≡ shape.entry.0) }
{
    let node = node(rt, alloc, shape);
    local.settle();
    let Ok(()) = local.reserve(2) else {
        panic!(rt; "out of memory")
    };
    see_that_it_is_legal(rt, local, id, &node);
    let Ok(()) = local.lay_by(1, node) else {
        panic!(rt; "out of memory")
    };
}

/// Lays a node by, and gives it to an identity that is there. Before that all is settled.
fn put(rt: &impl Abort, alloc: Global, local: &mut Local<Tree>, id: u64, shape: Shape) {
    let id = NodeId(id);
    lay_by(rt, alloc, local, id, shape);
    see_that_it_is_there(rt, local, id);
    local.put_laid(1, id);
}

/// The same for an identity that isn't there, which gets this key.
fn add_laid(
    rt: &impl Abort,
    alloc: Global,
    local: &mut Local<Tree>,
    id: u64,
    shape: Shape,
    key: u64,
) {
    let (id, key) = (NodeId(id), Key(key));
    lay_by(rt, alloc, local, id, shape);
    see_that_it_is_new(rt, local, id);
    see_that_it_is_free(rt, local, key);
    local.add_laid(1, id, key);
}

/// Sees that an identity may go once another has the node that is laid by, which has this parent.
fn see_that_it_may_go_then(
    rt: &impl Abort,
    local: &Local<Tree>,
    id: NodeId,
    to: NodeId,
    parent: u64,
)
    requires { IfSome (map.get local.now.laid 1) (λ node. node.place.parent.0 ≡ parent) }
    ensures other { id.0 ≢ to.0 }
    ensures cut { LegalCut (with_node local.now.now.tree to.0 (map.get local.now.laid 1)) id.0 }
{
    assert!(rt; id.0 != to.0);
    assert!(rt; parent != id.0);
    see_that_it_may_go(rt, local, id);
}

/// Lays a node by, and hands the key of one identity over to another with that node. Before that all is settled.
fn hand_over(
    rt: &impl Abort,
    alloc: Global,
    local: &mut Local<Tree>,
    id: u64,
    to: u64,
    shape: Shape,
) {
    let (id, to) = (NodeId(id), NodeId(to));
    lay_by(rt, alloc, local, to, shape);
    see_that_it_is_new(rt, local, to);
    see_that_it_may_go_then(rt, local, id, to, shape.0);
    local.hand_over(1, id, to);
}

/// Just these identities are there, each with this parent, name, version and key.
pub(crate) fn has(rt: &impl Abort, local: &Local<Tree>, rows: &[(u64, Shape, u64)]) {
    assert_eq!(rt; local.tree().len(), rows.len() as u64);
    assert_eq!(rt; local.keys().len(), rows.len() as u64);
    for &(id, (parent, name, ver), key) in rows {
        let node = local.tree().get(NodeId(id));
        assert!(rt;
            node.is_some_and(|n| n.place.parent.0 == parent
                && n.place.name.bytes() == name
                && n.ver.0 == ver)
        );
        assert!(rt; local.keys().key_of(NodeId(id)) == Some(Key(key)));
    }
}

const D: Shape = (0, b"d", 0);

const F_IN_D: Shape = (1, b"f", 3);

const F: Shape = (0, b"f", 4);

#[test]
fn what_comes_and_goes_is_taken_back(rt: HostRuntime) {
    let mut local = fresh(rt.alloc());
    add(&rt, rt.alloc(), &mut local, 1, D, 5);
    local.settle();
    add(&rt, rt.alloc(), &mut local, 2, F_IN_D, 6);
    has(&rt, &local, &[(1, D, 5), (2, F_IN_D, 6)]);
    cut(&rt, &mut local, 2);
    cut(&rt, &mut local, 1);
    has(&rt, &local, &[]);
    local.back();
    has(&rt, &local, &[(1, D, 5)]);
}

#[test]
fn a_node_that_is_put_keeps_its_key(rt: HostRuntime) {
    let mut local = fresh(rt.alloc());
    add(&rt, rt.alloc(), &mut local, 1, D, 5);
    add(&rt, rt.alloc(), &mut local, 2, F_IN_D, 6);
    put(&rt, rt.alloc(), &mut local, 2, F);
    has(&rt, &local, &[(1, D, 5), (2, F, 6)]);
    local.back();
    has(&rt, &local, &[(1, D, 5), (2, F_IN_D, 6)]);
}

#[test]
fn a_key_is_handed_over(rt: HostRuntime) {
    let mut local = fresh(rt.alloc());
    add_laid(&rt, rt.alloc(), &mut local, 1, D, 5);
    add(&rt, rt.alloc(), &mut local, 2, F_IN_D, 6);
    hand_over(&rt, rt.alloc(), &mut local, 2, 7, F);
    has(&rt, &local, &[(1, D, 5), (7, F, 6)]);
    local.back();
    has(&rt, &local, &[(1, D, 5), (2, F_IN_D, 6)]);
    local.settle_and_forget();
    has(&rt, &local, &[(1, D, 5), (2, F_IN_D, 6)]);
}
