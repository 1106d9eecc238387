ghost use Rattle.std.specs.Prelude.{◌≡◌, ◌≤◌, ◌<◌, [], IsSomeAnd, MatchBool, OnOk, OnErr};
ghost use Rattle.std.specs.FinMap as map;
ghost use Rattle.nuc_base.specs.Kinds.{FitsKind};
ghost use Rattle.nuc_base.specs.Legal.{LegalPut, LegalCut};
ghost use Rattle.nuc_base.specs.Trees.{WellFormed};
ghost use Rattle.nuc_undo.specs.Laid.{AllFit, StillLaid, with_node};
ghost use Rattle.nuc_undo.specs.State.{settled_of};
ghost use Rattle.nuc_undo.specs.Steps.{AllTakenBack, Changed, IsSettled, Keeps, KeepsTree, TakenBack};

use crate::stock::Stock;
use crate::undo::{Step, cut_undoable, put_undoable, take_back};
use nuc_base::{Node, NodeId, TreeLike};
use std::alloc::{AllocError, Global};
use std::marker::Model;
use std::mem;

/// A tree whose changes since its last `settle` can be taken back, the last first, without memory.
///
/// A change takes one of `spare`, and gives it back when it is taken back. Each call takes a fixed number of calls of
/// the tree, and `back` as many as there are changes to take back.
///
/// Beside it nodes are laid by under numbers of the caller's choice, so that a later put has its node already. A node
/// that was put from there is laid by again when its change is taken back. It is found in time in the logarithm of the
/// number of nodes that are laid by; to lay one by under a number below others moves those.
#[derive(Drop)]
pub struct UndoTree<T: TreeLike> {
    tree: T,
    /// The changes since the last `settle`.
    steps: Vec<Step>,
    /// The room in the tree that is kept for taking them back.
    kept: u64,
    stock: Stock,
}

impl<T: TreeLike> Model for UndoTree<T> {
    ghost use Rattle.nuc_undo.specs.State.{UndoState, state_code};

    ghost Value = { UndoState };

    ghost coded = { state_code };

    ghost use Rattle.std.specs.Prelude.{◌-◌, reverse, vec_capacity, vec_len};
    ghost use Rattle.nuc_undo.specs.State.{IsUndoTree, state_of};

    ghost view = { λ t. state_of (T.nodes t.tree) (reverse t.steps.items) (vec_capacity t.steps - vec_len t.steps) (T.spare t.tree) t.kept t.stock };

    ghost invariant = { λ t. IsUndoTree (T.nodes t.tree) (reverse t.steps.items) (T.spare t.tree) t.kept t.stock };
}

impl<T: TreeLike> UndoTree<T> {
    /// A tree without changes to take back, and with nothing laid by. It takes no memory.
    pub fn of(alloc: Global, tree: T) -> UndoTree<T>
        requires { WellFormed (T.nodes tree) }
        ensures now { result.now ≡ T.nodes tree }
        ensures past { result.past ≡ [] }
        ensures laid { result.laid ≡ map.empty }
        ensures laid_then { result.laid_then ≡ map.empty }
    {
        UndoTree {
            tree,
            steps: Vec::new(alloc),
            kept: 0,
            stock: Stock::new(alloc),
        }
    }

    /// The tree with all changes that were made and not taken back.
    pub fn tree(&self) -> &T
        ensures nodes { T.nodes result.now ≡ self.now.now }
        ensures form { WellFormed self.now.now }
        ensures settled { WellFormed (settled_of self.now) }
        ensures fits { AllFit self.now.laid }
        ensures laid { self.now.past ≡ [] → self.now.laid_then ≡ self.now.laid }
        ensures still { StillLaid self.now.laid self.now.laid_then }
    {
        &self.tree
    }

    /// Makes room for that many more changes, and for taking them back. Where the room is there already, it can't
    /// fail; a number too great to be had is want of memory.
    pub fn reserve(&mut self, n: u64) -> Result<(), AllocError>
        ensures ok { OnOk result (n ≤ self.new.spare) }
        ensures keeps { Keeps self.old self.new }
        ensures memory { OnErr result (self.old.spare < n) }
        ensures form { WellFormed self.new.now }
    {
        let room = self.kept.checked_add(n).ok_or(AllocError)?;
        self.tree.reserve(room)?;
        self.steps.reserve(n as usize)
    }

    /// Gives an identity a node, where that is known to be legal. It wants memory only when `spare` is 0.
    pub fn put(&mut self, id: NodeId, node: Node) -> Result<(), AllocError>
        requires id { 0 < id.0 }
        requires fits { FitsKind node }
        requires legal { LegalPut self.old.now id.0 node }
        ensures ok { OnOk result (self.new.now ≡ map.insert self.old.now id.0 node) }
        ensures changed { OnOk result (Changed self.old id.0 self.new) }
        ensures err { OnErr result (Keeps self.old self.new) }
        ensures memory { OnErr result (self.old.spare ≡ 0) }
        ensures laid { self.new.laid ≡ self.old.laid }
        ensures settled { settled_of self.new ≡ settled_of self.old }
        ensures form { WellFormed self.new.now }
    {
        self.reserve(1)?;
        let undo = put_undoable(&mut self.tree, id, node)?;
        self.kept += undo.owed();
        self.steps.push_reserved(Step { undo, number: None });
        Ok(())
    }

    /// Takes a node out of the tree that is known to be there without children. It wants memory only when `spare` is 0.
    pub fn cut(&mut self, id: NodeId) -> Result<(), AllocError>
        requires { LegalCut self.old.now id.0 }
        ensures ok { OnOk result (self.new.now ≡ map.remove self.old.now id.0) }
        ensures changed { OnOk result (Changed self.old id.0 self.new) }
        ensures err { OnErr result (Keeps self.old self.new) }
        ensures memory { OnErr result (self.old.spare ≡ 0) }
        ensures laid { self.new.laid ≡ self.old.laid }
        ensures settled { settled_of self.new ≡ settled_of self.old }
        ensures form { WellFormed self.new.now }
    {
        self.reserve(1)?;
        let undo = cut_undoable(&mut self.tree, id);
        self.kept += undo.owed();
        self.steps.push_reserved(Step { undo, number: None });
        Ok(())
    }

    /// Lays a node by under a number, in place of any that lies there. The number is free for that unless its node was
    /// put since the last `settle`, for then the place is kept for that node.
    pub fn lay_by(&mut self, number: u64, node: Node) -> Result<(), AllocError>
        requires free { map.get self.old.laid number ≡ map.get self.old.laid_then number }
        requires fits { FitsKind node }
        ensures laid { OnOk result (self.new.laid ≡ map.insert self.old.laid number node) }
        ensures laid_then { OnOk result (self.new.laid_then ≡ map.insert self.old.laid_then number node) }
        ensures tree { KeepsTree self.old self.new }
        ensures err { OnErr result (Keeps self.old self.new) }
        ensures form { WellFormed self.new.now }
    {
        self.stock.lay_by(number, node)
    }

    /// Gives an identity the node that is laid by under this number, where that is known to be legal. It takes no
    /// memory. The node is laid by again when the change is taken back.
    pub fn put_laid(&mut self, number: u64, id: NodeId)
        requires id { 0 < id.0 }
        requires room { 0 < self.old.spare }
        requires legal { IsSomeAnd (map.get self.old.laid number) (λ node. LegalPut self.old.now id.0 node) }
        ensures now { self.new.now ≡ with_node self.old.now id.0 (map.get self.old.laid number) }
        ensures laid { self.new.laid ≡ map.remove self.old.laid number }
        ensures changed { Changed self.old id.0 self.new }
        ensures settled { settled_of self.new ≡ settled_of self.old }
        ensures form { WellFormed self.new.now }
    {
        let node = self.stock.take(number);
        let Ok(undo) = put_undoable(&mut self.tree, id, node) else {
            unreachable!()
        };
        self.kept += undo.owed();
        self.steps.push_reserved(Step {
            undo,
            number: Some(number),
        });
    }

    /// Drops all nodes that are laid by. It takes no memory.
    pub fn forget_laid(&mut self)
        requires { self.old.past ≡ [] }
        ensures tree { KeepsTree self.old self.new }
        ensures laid { self.new.laid ≡ map.empty }
        ensures laid_then { self.new.laid_then ≡ map.empty }
        ensures form { WellFormed self.new.now }
    {
        self.stock.clear();
    }

    /// What is laid by in each of two trees lies by in the other, where neither has changes to take back. It takes no
    /// memory.
    pub fn swap_laid(&mut self, other: &mut UndoTree<T>)
        requires settled { self.old.past ≡ [] }
        requires other_settled { other.old.past ≡ [] }
        ensures tree { KeepsTree self.old self.new }
        ensures laid { self.new.laid ≡ other.old.laid }
        ensures laid_then { self.new.laid_then ≡ other.old.laid }
        ensures form { WellFormed self.new.now }
        ensures other_tree { KeepsTree other.old other.new }
        ensures other_laid { other.new.laid ≡ self.old.laid }
        ensures other_laid_then { other.new.laid_then ≡ self.old.laid }
        ensures other_form { WellFormed other.new.now }
    {
        mem::swap(&mut self.stock, &mut other.stock);
    }

    /// Takes the last change since `settle` back, if there is one.
    fn undo_last(&mut self) -> bool
        ensures last { MatchBool result (TakenBack self.old self.new) (IsSettled self.old × (self.new ≡ self.old)) }
        ensures settled { settled_of self.new ≡ settled_of self.old }
        ensures form { WellFormed self.new.now }
    {
        let Some(step) = self.steps.pop() else {
            return false;
        };
        self.kept -= step.undo.owed();
        let node = take_back(&mut self.tree, step.undo);
        self.stock.give_back(step.number, node);
        true
    }

    /// What there is now is what `back` leads to, and what was put from those laid by doesn't go back to them. It takes
    /// no memory.
    pub fn settle(&mut self)
        ensures now { self.new.now ≡ self.old.now }
        ensures past { self.new.past ≡ [] }
        ensures spare { self.old.spare ≤ self.new.spare }
        ensures laid { self.new.laid ≡ self.old.laid }
        ensures laid_then { self.new.laid_then ≡ self.old.laid }
        ensures form { WellFormed self.new.now }
    {
        self.steps.clear();
        self.kept = 0;
        self.stock.settle();
    }

    /// Takes back all changes since `settle` was last called, or since the tree was made. What they put from the nodes
    /// laid by is laid by again. It takes no memory.
    pub fn back(&mut self)
        ensures back { AllTakenBack self.old self.new }
        ensures form { WellFormed self.new.now }
    {
        while self.undo_last() {}
    }
}
