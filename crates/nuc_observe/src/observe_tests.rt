use super::*;
use crate::observe_trial::{Trial, see_that_they_come_in_turn};
use nuc_base::{Counters, NodeId, TreeLike};
use nuc_edits::EditKind;
use nuc_hash::content_of;
use nuc_tree::Tree;
use std::alloc::Global;
use std::process::Abort;
use std::test::Fail;

/// An identity, its parent, its name and its version.
type Row = (u64, u64, &'static [u8], u64);

/// An edit's version, identity and base, and the one byte that it puts. None where it deletes.
type Entered = (u64, u64, u64, Option<u8>);

fn assert_node(rt: &impl Abort, observed: &ObservedNode, want: Row) {
    let (id, parent, name, ver) = want;
    let node = &observed.node;
    assert_eq!(rt;
        (observed.id.0, node.place.parent.0, node.ver.0),
        (id, parent, ver)
    );
    assert!(rt; node.place.name.bytes() == name);
}

fn assert_nodes(rt: &impl Abort, all: &Observed, want: &[Row]) {
    assert_eq!(rt; all.nodes.len(), want.len());
    for (node, want) in all.nodes.iter().zip(want) {
        assert_node(rt, node, *want);
    }
}

fn assert_edits(
    rt: &impl Abort,
    alloc: Global,
    all: &Observed,
    want: &[Entered],
) -> Result<(), Fail> {
    assert_eq!(rt; all.edits.len(), want.len());
    for (edit, want) in all.edits.iter().zip(want) {
        let (ver, id, base, byte) = *want;
        assert_eq!(rt; (edit.ver.0, edit.id.0, edit.base.0), (ver, id, base));
        match (&edit.what, byte) {
            (EditKind::Put(content), Some(byte)) => {
                assert!(rt; content.hash() == content_of(alloc, &[byte])?.hash());
            }
            (EditKind::Deleted, None) => {}
            _ => panic!(rt; "another kind of edit"),
        }
    }
    Ok(())
}

fn assert_ids(rt: &impl Abort, all: &Observed, next_id: u64, next_ver: u64) {
    assert_eq!(rt; all.ids, Counters { next_id, next_ver });
}

/// The identities in the order of the listing.
fn assert_listed(rt: &impl Abort, all: &Observed, want: &[u64]) {
    assert_eq!(rt; all.listed.len(), want.len());
    for (node, id) in all.listed.iter().zip(want) {
        assert_eq!(rt; node.id.0, *id);
    }
}

/// The bindings in order, each an identity and its key.
fn assert_keys(rt: &impl Abort, all: &Observed, want: &[(u64, u64)]) {
    assert_eq!(rt; all.keys.len(), want.len());
    for (binding, (id, key)) in all.keys.iter().zip(want) {
        assert_eq!(rt; (binding.id.0, binding.key.0), (*id, *key));
    }
}

#[test]
fn a_moved_file_keeps_its_identity(rt: HostRuntime) -> Result<(), Fail> {
    let trial = Trial::of(&rt, rt.alloc(), [1, 1, 1])?;
    let all = trial.scan(&[
        (7, 0, Some(b'c'), b"h"),
        (6, 0, None, b"d"),
        (5, 6, Some(b'a'), b"g"),
    ])?;
    assert_nodes(
        &rt,
        &all,
        &[(1, 2, b"g", 1), (2, 0, b"d", 0), (3, 0, b"h", 3)],
    );
    assert_listed(&rt, &all, &[3, 2, 1]);
    assert_keys(&rt, &all, &[(1, 5), (2, 6), (3, 7)]);
    assert_edits(&rt, rt.alloc(), &all, &[])?;
    assert_ids(&rt, &all, 4, 4);
    Ok(())
}

/// In order of identity, each with Local's version as its base. A folder that is gone enters nothing.
#[test]
fn files_that_are_gone_are_deleted(rt: HostRuntime) -> Result<(), Fail> {
    let trial = Trial::of(&rt, rt.alloc(), [1, 2, 2])?;
    let all = trial.scan(&[])?;
    assert_nodes(&rt, &all, &[]);
    assert_keys(&rt, &all, &[]);
    assert_edits(&rt, rt.alloc(), &all, &[(4, 1, 1, None), (5, 3, 3, None)])?;
    assert_ids(&rt, &all, 4, 6);
    Ok(())
}

/// A new folder gets an identity alone, a new file a version too.
#[test]
fn what_is_new_gets_the_next_numbers(rt: HostRuntime) -> Result<(), Fail> {
    let trial = Trial::of(&rt, rt.alloc(), [1, 1, 1])?;
    let all = trial.scan(&[
        (8, 0, None, b"e"),
        (9, 8, Some(b'z'), b"n"),
        (5, 0, Some(b'a'), b"f"),
    ])?;
    assert_nodes(
        &rt,
        &all,
        &[(1, 0, b"f", 1), (4, 0, b"e", 0), (5, 4, b"n", 4)],
    );
    assert_keys(&rt, &all, &[(1, 5), (4, 8), (5, 9)]);
    assert_edits(
        &rt,
        rt.alloc(),
        &all,
        &[(4, 5, 0, Some(b'z')), (5, 3, 3, None)],
    )?;
    assert_ids(&rt, &all, 6, 6);
    Ok(())
}

#[test]
fn a_changed_file_is_put_over_the_version_of_local(rt: HostRuntime) -> Result<(), Fail> {
    let trial = Trial::of(&rt, rt.alloc(), [1, 2, 3])?;
    let all = trial.scan(&[(5, 0, Some(b'z'), b"f"), (7, 0, Some(b'c'), b"h")])?;
    assert_nodes(&rt, &all, &[(1, 0, b"f", 4), (3, 0, b"h", 3)]);
    assert_edits(&rt, rt.alloc(), &all, &[(4, 1, 1, Some(b'z'))])?;
    assert_ids(&rt, &all, 4, 5);
    Ok(())
}

#[test]
fn the_version_of_remote_is_taken_where_local_and_synced_agree(
    rt: HostRuntime,
) -> Result<(), Fail> {
    let trial = Trial::of(&rt, rt.alloc(), [1, 1, 2])?;
    let all = trial.scan(&[(5, 0, Some(b'b'), b"f"), (7, 0, Some(b'c'), b"h")])?;
    assert_nodes(&rt, &all, &[(1, 0, b"f", 2), (3, 0, b"h", 3)]);
    assert_edits(&rt, rt.alloc(), &all, &[])?;
    Ok(())
}

#[test]
fn the_version_of_remote_is_left_where_they_differ(rt: HostRuntime) -> Result<(), Fail> {
    let trial = Trial::of(&rt, rt.alloc(), [1, 3, 2])?;
    let all = trial.scan(&[(5, 0, Some(b'b'), b"f"), (7, 0, Some(b'c'), b"h")])?;
    assert_nodes(&rt, &all, &[(1, 0, b"f", 4), (3, 0, b"h", 3)]);
    assert_edits(&rt, rt.alloc(), &all, &[(4, 1, 1, Some(b'b'))])?;
    Ok(())
}

fn tree_of_all(rt: &impl Abort, alloc: Global, all: &Observed) -> Result<Tree, Fail> {
    see_that_they_come_in_turn(rt, alloc, &all.listed)?;
    Ok(tree_of(alloc, &all.listed)?)
}

fn assert_parent(rt: &impl Abort, tree: &Tree, id: u64, parent: u64) {
    let node = tree.get(NodeId(id));
    assert!(rt; node.is_some_and(|node| node.place.parent == NodeId(parent)));
}

/// The folder 2 is listed before the file 1, which stands in it.
#[test]
fn the_listed_nodes_make_a_tree(rt: HostRuntime) -> Result<(), Fail> {
    let trial = Trial::of(&rt, rt.alloc(), [1, 1, 1])?;
    let all = trial.scan(&[(6, 0, None, b"d"), (5, 6, Some(b'a'), b"g")])?;
    let tree = tree_of_all(&rt, rt.alloc(), &all)?;
    assert_eq!(rt; tree.len(), 2);
    assert_parent(&rt, &tree, 1, 2);
    assert_parent(&rt, &tree, 2, 0);
    Ok(())
}
