//! Trees for tests, and what is measured of three of them.
ghost use Rattle.std.specs.Prelude.{◌==◌, ◌%◌, IfOk};
ghost use Rattle.nuc_base.specs.Trees.{WellFormed};

use crate::{differing, potential};
use nuc_base::{Hashes, Kind, Name, Node, NodeId, Place, TreeLike, Ver};
use nuc_tree::Tree;
use std::alloc::Global;
use std::process::Abort;
use std::test::Fail;

/// Contents that are as their versions' last digits.
struct LastDigit;

impl Hashes for LastDigit {
    ghost same = { λ _ a b. a % 10 == b % 10 };

    fn same(&self, a: Ver, b: Ver) -> bool {
        a.0 % 10 == b.0 % 10
    }
}

/// An identity with its parent, its name, its version and its bit: a folder for version 0, else a file.
pub(crate) type Row = (u64, u64, &'static [u8], u64, bool);

pub(crate) const fn folder(id: u64, parent: u64, name: &'static [u8]) -> Row {
    (id, parent, name, 0, false)
}

/// A file at the root.
pub(crate) const fn file(id: u64, name: &'static [u8], ver: u64) -> Row {
    (id, 0, name, ver, false)
}

/// A file in a folder.
pub(crate) const fn inside(id: u64, parent: u64, name: &'static [u8], ver: u64) -> Row {
    (id, parent, name, ver, false)
}

/// The tree with these nodes, parents first.
fn tree(rt: &impl Abort, alloc: Global, rows: &[Row]) -> Result<Tree, Fail>
    ensures { IfOk result (λ tree. WellFormed tree.nodes) }
{
    let mut tree = Tree::new(alloc);
    for &(id, parent, name, ver, bit) in rows {
        assert!(rt; id > 0 && (ver > 0 || !bit));
        let name = Name::new(alloc, name)?;
        let parent = NodeId(parent);
        let node = Node {
            place: Place { parent, name },
            kind: if ver == 0 { Kind::Folder } else { Kind::File },
            ver: Ver(ver),
            bit,
        };
        tree.put(NodeId(id), node)?;
    }
    Ok(tree)
}

/// How many identities differ in Remote, Local and Synced, and the potential of the three.
pub(crate) fn measures(
    rt: &impl Abort,
    alloc: Global,
    trees: [&[Row]; 3],
) -> Result<(u64, u64), Fail> {
    let [r, l, s] = trees;
    let remote = tree(rt, alloc, r)?;
    let local = tree(rt, alloc, l)?;
    let synced = tree(rt, alloc, s)?;
    Ok((
        differing(&remote, &local, &synced),
        potential(&remote, &local, &synced, &LastDigit),
    ))
}

/// How many identities differ.
pub(crate) fn count(rt: &impl Abort, alloc: Global, trees: [&[Row]; 3]) -> Result<u64, Fail> {
    Ok(measures(rt, alloc, trees)?.0)
}
