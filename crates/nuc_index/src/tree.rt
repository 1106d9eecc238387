ghost use Rattle.std.specs.Prelude.{◌≡◌};
ghost use Rattle.std.specs.FinMap as map;
ghost use Rattle.nuc_base.specs.Trees.{WellFormed};

use crate::change::{add, exchange, take_out};
use crate::entry::{Entry, entry_position, id_at, node_of};
use crate::indexes::Indexes;
use crate::place::place_position;
use crate::sibling::child_at;
use nuc_base::{CutFault, Name, Node, NodeId, PutFault, TreeLike};
use slab::Slab;
use std::alloc::{AllocError, Global};
use std::marker::Model;

/// A tree whose nodes stand in slots, with lists of the slots by identity, by place and by parent. Every question takes
/// time in the logarithm of the number of nodes; `under` at each folder on the way. A change asks as much, and moves few of
/// each list's slots (see `TieredVec`); the nodes stay where they are.
#[derive(Debug, Drop)]
pub struct IndexTree {
    entries: Slab<Entry>,
    indexes: Indexes,
}

impl Model for IndexTree {
    ghost use Rattle.nuc_tree.specs.State.{TreeState, state_code};
    ghost use Rattle.nuc_index.specs.Indexes.{IsIndexed, room, tree_of};

    ghost Value = { TreeState };

    ghost coded = { state_code };

    ghost view = { λ t. record { nodes = tree_of t.entries t.indexes; spare = room t.entries t.indexes } };

    ghost invariant = { λ t. IsIndexed t.entries t.indexes };
}

impl IndexTree {
    /// The tree of nothing but the root. It takes no memory.
    pub fn new(alloc: Global) -> IndexTree
        ensures empty { result.nodes ≡ map.empty }
        ensures tree { WellFormed result.nodes }
    {
        IndexTree {
            entries: Slab::new(alloc),
            indexes: Indexes::new(alloc),
        }
    }
}

impl TreeLike for IndexTree {
    ghost nodes = { λ t. t.nodes };

    ghost spare = { λ t. t.spare };

    fn empty(alloc: Global) -> Result<IndexTree, AllocError> {
        Ok(IndexTree::new(alloc))
    }

    fn get(&self, id: NodeId) -> Option<&Node> {
        node_of(&self.indexes.ids, &self.entries, id)
    }

    fn at(&self, parent: NodeId, name: &Name) -> Option<NodeId> {
        match place_position(&self.indexes, &self.entries, parent, name) {
            Ok(at) => id_at(&self.indexes.places, &self.entries, at),
            Err(_) => None,
        }
    }

    fn has_child(&self, id: NodeId) -> bool {
        child_at(&self.indexes.siblings, &self.entries, id, 0).is_some()
    }

    fn child(&self, id: NodeId, i: u64) -> Option<NodeId> {
        child_at(&self.indexes.siblings, &self.entries, id, i)
    }

    fn nth(&self, i: u64) -> Option<NodeId> {
        id_at(&self.indexes.ids, &self.entries, i as usize)
    }

    fn len(&self) -> u64 {
        self.indexes.ids.len() as u64
    }

    fn reserve(&mut self, n: u64) -> Result<(), AllocError> {
        self.entries.reserve(n as usize)?;
        self.indexes.reserve(n as usize)
    }

    fn put(&mut self, id: NodeId, node: Node) -> Result<Option<Node>, PutFault> {
        self.check_put(id, &node)?;
        match entry_position(&self.indexes.ids, &self.entries, id) {
            Ok(at) => {
                let entry = Entry { id, node };
                let before = exchange(&mut self.entries, &mut self.indexes, at, entry);
                Ok(Some(before))
            }
            Err(at) => {
                let entry = Entry { id, node };
                add(&mut self.entries, &mut self.indexes, at, entry).map_err(|_| PutFault::Memory)?;
                Ok(None)
            }
        }
    }

    fn cut(&mut self, id: NodeId) -> Result<Node, CutFault> {
        let Ok(at) = entry_position(&self.indexes.ids, &self.entries, id) else {
            return Err(CutFault::Absent);
        };
        if child_at(&self.indexes.siblings, &self.entries, id, 0).is_some() {
            return Err(CutFault::NotEmpty);
        }
        Ok(take_out(&mut self.entries, &mut self.indexes, at, id))
    }
}
