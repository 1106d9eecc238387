//! What comes in place of another: an identity, and all that there is.
ghost use Rattle.std.specs.Prelude.{◌≡◌, ◌<◌, []};
ghost use Rattle.nuc_base.specs.Kinds.{FitsKind};
ghost use Rattle.nuc_base.specs.Trees.{IsVacant, WellFormed};
ghost use Rattle.nuc_replica.specs.Local.{HaveKeys};
ghost use Rattle.nuc_replica.specs.Renaming.{CanRename, StandsIn};

use crate::Local;
use crate::local_tests::{add, fresh, has, see_that_it_is_new};
use crate::trial::{Shape, node};
use nuc_base::{Name, Node, NodeId, Place, TreeLike};
use nuc_folder::Key;
use nuc_observe::Keys;
use nuc_tree::Tree;
use std::alloc::Global;
use std::process::Abort;

/// An identity with its node and its key.
type Row = (u64, Shape, u64);

/// Sees that a node can stand where this identity stands.
fn see_that_it_stands_in(rt: &impl Abort, local: &Local<Tree>, id: NodeId, node: &Node)
    ensures { StandsIn local.now.now.tree id.0 node.now }
{
    let Some(own) = local.tree().get(id) else {
        panic!(rt; "it isn't there")
    };
    assert!(rt; node.place.parent == own.place.parent);
    assert!(rt; node.place.name.same(&own.place.name));
    assert!(rt; node.kind == own.kind);
}

/// Sees that nobody has a place.
fn see_that_it_is_vacant(rt: &impl Abort, local: &Local<Tree>, place: &Place)
    ensures { IsVacant local.now.now.tree place.now }
{
    if local.tree().at(place.parent, &place.name).is_some() {
        panic!(rt; "the place is taken")
    }
}

/// Another identity comes in place of this one, with this node.
fn rename(rt: &impl Abort, alloc: Global, local: &mut Local<Tree>, id: u64, to: u64, shape: Shape) {
    let (id, to) = (NodeId(id), NodeId(to));
    let node = node(rt, alloc, shape);
    let Ok(name) = Name::new(alloc, b"aside") else {
        panic!(rt; "no name, or no memory")
    };
    let parent = node.place.parent;
    let aside = Place { parent, name };
    assert!(rt; to.0 > 0);
    see_that_it_is_new(rt, local, to);
    see_that_it_stands_in(rt, local, id, &node);
    see_that_it_is_vacant(rt, local, &aside);
    assert!(rt; local.rename(alloc, id, to, node, aside.name).is_ok());
}

const D: Shape = (0, b"d", 0);

const F_IN_D: Shape = (1, b"f", 3);

const E_IN_D: Shape = (1, b"e", 0);

const G_IN_E: Shape = (3, b"g", 4);

const H: Shape = (0, b"h", 5);

const H_IN_E: Shape = (3, b"h", 6);

/// The folder `d` with the file `f` and the folder `e`, that with the file `g`, and beside `d` the file `h`.
const FILLED: [Row; 5] = [
    (1, D, 11),
    (2, F_IN_D, 12),
    (3, E_IN_D, 13),
    (4, G_IN_E, 14),
    (5, H, 15),
];

fn filled(rt: &impl Abort, alloc: Global) -> Local<Tree> {
    let mut local = fresh(alloc);
    for &(id, shape, key) in &FILLED {
        add(rt, alloc, &mut local, id, shape, key);
    }
    local.settle();
    local
}

/// It has the place, the children and the key of the one that goes.
#[test]
fn a_folder_comes_in_place_of_another(rt: HostRuntime) {
    let mut local = filled(&rt, rt.alloc());
    for _ in 0..2u8 {
        rename(&rt, rt.alloc(), &mut local, 1, 9, D);
        has(
            &rt,
            &local,
            &[
                (9, D, 11),
                (2, (9, b"f", 3), 12),
                (3, (9, b"e", 0), 13),
                (4, G_IN_E, 14),
                (5, H, 15),
            ],
        );
        local.back();
        has(&rt, &local, &FILLED);
    }
}

/// It brings a version of its own.
#[test]
fn a_file_comes_in_place_of_another(rt: HostRuntime) {
    let mut local = filled(&rt, rt.alloc());
    rename(&rt, rt.alloc(), &mut local, 2, 7, (1, b"f", 6));
    let renamed = [
        (1, D, 11),
        (7, (1, b"f".as_slice(), 6), 12),
        (3, E_IN_D, 13),
        (4, G_IN_E, 14),
        (5, H, 15),
    ];
    has(&rt, &local, &renamed);
    local.settle();
    local.back();
    has(&rt, &local, &renamed);
}

/// A tree of these and their keys, settled.
fn tree_and_keys(rt: &impl Abort, alloc: Global, rows: &[Row]) -> (Tree, Keys)
    ensures form { WellFormed result.0.nodes }
    ensures keys { HaveKeys result.0.nodes result.1.now }
    ensures settled { result.1.past ≡ [] }
{
    let mut tree = Tree::new(alloc);
    let mut keys = Keys::new(alloc);
    for &(id, shape, key) in rows {
        assert!(rt; id > 0 && key > 0);
        if keys.id_of(Key(key)).is_some() {
            panic!(rt; "the key is another's")
        }
        let Ok(_) = tree.put(NodeId(id), node(rt, alloc, shape)) else {
            panic!(rt; "a node isn't legal, or no memory")
        };
        let Ok(()) = keys.put(NodeId(id), Key(key)) else {
            panic!(rt; "out of memory")
        };
    }
    keys.settle();
    (tree, keys)
}

/// All that there is gives way to these.
fn replace(rt: &impl Abort, alloc: Global, local: &mut Local<Tree>, rows: &[Row]) {
    let (tree, keys) = tree_and_keys(rt, alloc, rows);
    assert!(rt; local.replace(alloc, tree, keys, 1).is_ok());
}

/// The file is named anew and has a new version, what it stood in is gone, and another came.
const SCANNED: [Row; 2] = [(2, (0, b"g", 6), 12), (6, (0, b"k", 7), 16)];

const SCANNED_LATER: [Row; 1] = [(7, (0, b"d", 0), 17)];

#[test]
fn all_is_replaced_and_taken_back(rt: HostRuntime) {
    let mut local = filled(&rt, rt.alloc());
    replace(&rt, rt.alloc(), &mut local, &SCANNED);
    has(&rt, &local, &SCANNED);
    local.back();
    has(&rt, &local, &FILLED);
    replace(&rt, rt.alloc(), &mut local, &SCANNED);
    local.settle();
    local.back();
    has(&rt, &local, &SCANNED);
}

/// Also where it had changed before, is replaced twice, and changes after.
#[test]
fn changes_round_a_replacement_are_taken_back_with_it(rt: HostRuntime) {
    let mut local = filled(&rt, rt.alloc());
    add(&rt, rt.alloc(), &mut local, 8, H_IN_E, 18);
    replace(&rt, rt.alloc(), &mut local, &SCANNED);
    replace(&rt, rt.alloc(), &mut local, &SCANNED_LATER);
    has(&rt, &local, &SCANNED_LATER);
    add(&rt, rt.alloc(), &mut local, 9, (7, b"m", 8), 19);
    has(&rt, &local, &[SCANNED_LATER[0], (9, (7, b"m", 8), 19)]);
    local.back();
    has(&rt, &local, &FILLED);
}
