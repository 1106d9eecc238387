ghost use Rattle.std.specs.Prelude.{IsTrue};
ghost use Rattle.nuc_base.specs.Kinds.{FitsKind};

use crate::fault::Fault;
use nuc_base::{Counters, Kind, Node, TreeLike};
use nuc_edits::{Edit, EditKind, Edits};
use nuc_folder::Item;
use nuc_index::IndexTree;
use nuc_observe::{Binding, Keys, Observed, ObservedNode, observed};
use std::alloc::{AllocError, Global};
use std::marker::Model;

/// What a client knows of its folder whose three trees are one.
#[derive(Drop)]
pub(crate) struct Known {
    alloc: Global,
    keys: Keys,
    tree: IndexTree,
    edits: Edits,
    ids: Counters,
}

impl Model for Known {
    ghost use Rattle.std.specs.Prelude.{ℕ};
    ghost use Rattle.nuc_base.specs.Trees.{WellFormed};
    ghost use Rattle.nuc_edits.specs.Edits.{IsNext};

    ghost Value = { ℕ };

    ghost view = { λ k. 0 };

    ghost invariant = { λ k. WellFormed k.tree.nodes × IsNext k.ids.next_ver k.edits.now.edits };
}

impl Known {
    pub(crate) fn new(alloc: Global) -> Known {
        Known {
            alloc,
            keys: Keys::new(alloc),
            tree: IndexTree::new(alloc),
            edits: Edits::new(alloc),
            ids: Counters {
                next_id: 1,
                next_ver: 1,
            },
        }
    }

    pub(crate) fn observe(&self, items: &[Item]) -> Result<Observed, Fault> {
        let tree = &self.tree;
        Ok(observed(
            self.alloc,
            items,
            &self.keys,
            tree,
            tree,
            tree,
            &self.ids,
            &self.edits,
        )?)
    }

    /// Observes a first listing and takes over what it comes to.
    pub(crate) fn learn(&mut self, items: &[Item]) -> Result<(), Fault> {
        let all = self.observe(items)?;
        self.take(&all)
    }

    pub(crate) fn told(&self, alloc: Global) -> Result<String, Fault> {
        let nodes = self.tree.len();
        let keys = self.keys.len();
        let edits = self.edits.len();
        Ok(format!(in alloc; "listing none {nodes} nodes {keys} keys {edits} edits")?)
    }

    fn take(&mut self, all: &Observed) -> Result<(), Fault> {
        self.keys.reserve(all.keys.len() as u64)?;
        self.put_all(&all.listed)?;
        self.bind_all(&all.keys)?;
        self.enter_all(&all.edits)?;
        self.ids.next_id = all.ids.next_id;
        Ok(())
    }

    fn put_all(&mut self, nodes: &[ObservedNode]) -> Result<(), Fault> {
        for node in nodes {
            self.put(node)?;
        }
        Ok(())
    }

    fn put(&mut self, next: &ObservedNode) -> Result<(), Fault> {
        if next.id.0 == 0 || !fits(&next.node) {
            return Err(Fault::Untaken);
        }
        self.tree.put(next.id, next.node.copy(self.alloc)?)?;
        Ok(())
    }

    fn bind_all(&mut self, bindings: &[Binding]) -> Result<(), Fault> {
        for binding in bindings {
            self.bind(*binding)?;
        }
        self.keys.settle();
        Ok(())
    }

    fn bind(&mut self, binding: Binding) -> Result<(), Fault> {
        let Binding { id, key } = binding;
        if id.0 == 0 || key.0 == 0 {
            return Err(Fault::Untaken);
        }
        match self.keys.id_of(key) {
            Some(_) => Err(Fault::Untaken),
            None => Ok(self.keys.put(id, key)?),
        }
    }

    fn enter_all(&mut self, edits: &[Edit]) -> Result<(), Fault> {
        for edit in edits {
            self.enter(edit)?;
        }
        Ok(())
    }

    fn enter(&mut self, edit: &Edit) -> Result<(), AllocError> {
        let what = match &edit.what {
            EditKind::Put(content) => EditKind::Put(content.copy(self.alloc)?),
            EditKind::Deleted => EditKind::Deleted,
        };
        self.edits.enter(&mut self.ids, edit.id, edit.base, what)?;
        Ok(())
    }
}

fn fits(node: &Node) -> bool
    ensures { IsTrue result → FitsKind node.now }
{
    match node.kind {
        Kind::Folder => node.ver.0 == 0 && !node.bit,
        Kind::File => node.ver.0 > 0,
    }
}
