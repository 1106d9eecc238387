//! What there is before a scan, for tests.
ghost use Rattle.std.specs.Prelude.{◌≡◌, ◌<◌, None, IfOk, IsTrue, OnOk};
ghost use Rattle.std.specs.FinMap as map;
ghost use Rattle.nuc_base.specs.Kinds.{FitsKind};
ghost use Rattle.nuc_observe.specs.Made.{ComeInTurn};

use super::*;
use crate::tests::hand;
use nuc_base::{Counters, Kind, Name, NameFault, Node, NodeId, Place, TreeLike, Ver};
use nuc_edits::{EditKind, Edits};
use nuc_folder::{Item, Key};
use nuc_hash::content_of;
use nuc_tree::Tree;
use sqlite_items::Items;
use std::alloc::{AllocError, Global};
use std::marker::Model;
use std::process::Abort;
use std::test::Fail;

/// An item's key, its parent's, the one byte that a file holds, and the name.
pub(crate) type Line = (u64, u64, Option<u8>, &'static [u8]);

/// The versions of a file in Local, Synced and Remote.
pub(crate) type Versions = [u64; 3];

fn item(alloc: Global, line: Line) -> Result<Item, AllocError> {
    let (key, parent, byte, name) = line;
    let content = match byte {
        Some(byte) => Some(content_of(alloc, &[byte])?),
        None => None,
    };
    Ok(Item {
        key: Key(key),
        parent: Key(parent),
        content,
        name: Items::from_slice(alloc, name)?,
        bit: false,
    })
}

/// A node at the root: a folder for version 0, else a file.
fn node(alloc: Global, name: &[u8], ver: u64) -> Result<Node, NameFault>
    ensures { IfOk result FitsKind }
{
    let name = Name::new(alloc, name)?;
    let parent = NodeId(0);
    let kind = if ver == 0 { Kind::Folder } else { Kind::File };
    Ok(Node {
        place: Place { parent, name },
        kind,
        ver: Ver(ver),
        bit: false,
    })
}

fn fits(node: &Node) -> bool
    ensures { IsTrue result → FitsKind node.now }
{
    match node.kind {
        Kind::Folder => node.ver.0 == 0 && !node.bit,
        Kind::File => node.ver.0 > 0,
    }
}

/// Sees that a node fits its kind, and that its identity is absent.
fn see_that_it_is_new(rt: &impl Abort, tree: &Tree, next: &ObservedNode)
    ensures above { 0 < next.now.id.0 }
    ensures absent { map.get tree.now.nodes next.now.id.0 ≡ None }
    ensures fits { FitsKind next.now.node }
{
    assert!(rt; next.id.0 > 0);
    assert!(rt; tree.get(next.id).is_none());
    assert!(rt; fits(&next.node));
}

/// Sees that each node can be put where those before it stand.
pub(crate) fn see_that_they_come_in_turn(
    rt: &impl Abort,
    alloc: Global,
    nodes: &[ObservedNode],
) -> Result<(), Fail>
    ensures { OnOk result (ComeInTurn nodes.now) }
{
    let mut tree = Tree::new(alloc);
    for next in nodes {
        see_that_it_is_new(rt, &tree, next);
        tree.put(next.id, next.node.copy(alloc)?)?;
    }
    Ok(())
}

/// The keys, the trees and the edits before a scan. What each call requires is seen to when it is made, so that a test may
/// make any.
#[derive(Drop)]
pub(crate) struct Trial {
    alloc: Global,
    keys: Keys,
    local: Tree,
    synced: Tree,
    remote: Tree,
    edits: Edits,
    ids: Counters,
}

impl Model for Trial {
    ghost use Rattle.std.specs.Prelude.{ℕ};
    ghost use Rattle.nuc_base.specs.Trees.{WellFormed};
    ghost use Rattle.nuc_edits.specs.Edits.{IsNext};

    ghost Value = { ℕ };

    ghost view = { λ t. 0 };

    ghost invariant = { λ t. WellFormed t.local.nodes × WellFormed t.synced.nodes × WellFormed t.remote.nodes × IsNext t.ids.next_ver t.edits.now.edits };
}

impl Trial {
    fn new(alloc: Global) -> Trial {
        Trial {
            alloc,
            keys: Keys::new(alloc),
            local: Tree::new(alloc),
            synced: Tree::new(alloc),
            remote: Tree::new(alloc),
            edits: Edits::new(alloc),
            ids: Counters {
                next_id: 1,
                next_ver: 1,
            },
        }
    }

    /// The versions 1, 2 and 3 hold `a`, `b` and `c`. The file `f` with key 5 is 1 and has these versions, the folder `d`
    /// with key 6 is 2, and the file `h` with key 7 is 3 and has version 3. The next identity and the next version are 4.
    pub(crate) fn of(rt: &impl Abort, alloc: Global, versions: Versions) -> Result<Trial, Fail> {
        let mut trial = Trial::new(alloc);
        for byte in b"abc" {
            trial.enter(*byte)?;
        }
        trial.stand(rt, 5, b"f", versions)?;
        trial.stand(rt, 6, b"d", [0, 0, 0])?;
        trial.stand(rt, 7, b"h", [3, 3, 3])?;
        Ok(trial)
    }

    /// A content of one byte gets the next version.
    fn enter(&mut self, byte: u8) -> Result<(), Fail> {
        let content = content_of(self.alloc, &[byte])?;
        self.edits
            .enter(&mut self.ids, NodeId(1), Ver(0), EditKind::Put(content))?;
        Ok(())
    }

    /// The next identity stands at the root with this key.
    fn stand(
        &mut self,
        rt: &impl Abort,
        key: u64,
        name: &[u8],
        versions: Versions,
    ) -> Result<(), Fail> {
        let id = self.ids.next_id;
        assert!(rt; id > 0 && id < 100 && key > 0);
        self.ids.next_id = id + 1;
        hand(&mut self.keys, NodeId(id), Key(key))?;
        let [local, synced, remote] = versions;
        self.local.put(NodeId(id), node(self.alloc, name, local)?)?;
        self.synced
            .put(NodeId(id), node(self.alloc, name, synced)?)?;
        self.remote
            .put(NodeId(id), node(self.alloc, name, remote)?)?;
        Ok(())
    }

    pub(crate) fn scan(&self, lines: &[Line]) -> Result<Observed, Fail> {
        let mut items = Vec::new(self.alloc);
        for line in lines {
            items.push(item(self.alloc, *line)?)?;
        }
        Ok(observed(
            self.alloc,
            &items,
            &self.keys,
            &self.remote,
            &self.local,
            &self.synced,
            &self.ids,
            &self.edits,
        )?)
    }
}
