ghost use Rattle.std.specs.Prelude.{◌≡◌};
ghost use Rattle.std.specs.FinMap as map;
ghost use Rattle.nuc_base.specs.Trees.{WellFormed};

use crate::entry::{Entry, child_at, has_parent, position, standing_at};
use nuc_base::{CutFault, Name, Node, NodeId, PutFault, TreeLike};
use std::alloc::{AllocError, Global};
use std::marker::Model;
use std::mem;

/// A tree as a list of its nodes in order of identity. `get` takes time in the logarithm of their number, every other
/// call in their number.
#[derive(Debug, Drop)]
pub struct Tree {
    entries: Vec<Entry>,
}

impl Model for Tree {
    ghost use Rattle.std.specs.Prelude.{◌-◌, vec_len, vec_capacity};
    ghost use Rattle.nuc_tree.specs.State.{TreeState, state_code};
    ghost use Rattle.nuc_tree.specs.Entries.{nodes_of, IsRising};

    ghost Value = { TreeState };

    ghost coded = { state_code };

    ghost view = { λ t. record { nodes = nodes_of t.entries.items; spare = vec_capacity t.entries - vec_len t.entries } };

    ghost invariant = { λ t. IsRising t.entries.items };
}

impl Tree {
    /// The tree of nothing but the root. It takes no memory.
    pub fn new(alloc: Global) -> Tree
        ensures empty { result.nodes ≡ map.empty }
        ensures tree { WellFormed result.nodes }
    {
        Tree {
            entries: Vec::new(alloc),
        }
    }
}

impl TreeLike for Tree {
    ghost nodes = { λ t. t.nodes };

    ghost spare = { λ t. t.spare };

    fn empty(alloc: Global) -> Result<Tree, AllocError> {
        Ok(Tree::new(alloc))
    }

    fn get(&self, id: NodeId) -> Option<&Node> {
        match position(&self.entries, id) {
            Ok(at) => Some(&self.entries[at].node),
            Err(_) => None,
        }
    }

    fn at(&self, parent: NodeId, name: &Name) -> Option<NodeId> {
        standing_at(&self.entries, parent, name)
    }

    fn has_child(&self, id: NodeId) -> bool {
        has_parent(&self.entries, id)
    }

    fn child(&self, id: NodeId, i: u64) -> Option<NodeId> {
        child_at(&self.entries, id, i)
    }

    fn nth(&self, i: u64) -> Option<NodeId> {
        match self.entries.get(i as usize) {
            Some(entry) => Some(entry.id),
            None => None,
        }
    }

    fn len(&self) -> u64 {
        self.entries.len() as u64
    }

    fn reserve(&mut self, n: u64) -> Result<(), AllocError> {
        self.entries.reserve(n as usize)
    }

    fn put(&mut self, id: NodeId, node: Node) -> Result<Option<Node>, PutFault> {
        self.check_put(id, &node)?;
        match position(&self.entries, id) {
            Ok(at) => {
                let Entry { id: _, node } = mem::replace(&mut self.entries[at], Entry { id, node });
                Ok(Some(node))
            }
            Err(at) => {
                let entry = Entry { id, node };
                self.entries
                    .insert(at, entry)
                    .map_err(|_| PutFault::Memory)?;
                Ok(None)
            }
        }
    }

    fn cut(&mut self, id: NodeId) -> Result<Node, CutFault> {
        let Ok(at) = position(&self.entries, id) else {
            return Err(CutFault::Absent);
        };
        if has_parent(&self.entries, id) {
            return Err(CutFault::NotEmpty);
        }
        let Entry { id: _, node } = self.entries.remove(at);
        Ok(node)
    }
}
