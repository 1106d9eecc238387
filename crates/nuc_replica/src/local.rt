ghost use Rattle.std.specs.Prelude.{◌≡◌, ◌≢◌, ◌≤◌, ◌<◌, ◌+◌, [], ℕ, min, None, Some, IsSomeAnd, OnOk, OnErr};
ghost use Rattle.std.specs.FinMap as map;
ghost use Rattle.nuc_base.specs.Kinds.{FitsKind};
ghost use Rattle.nuc_base.specs.Legal.{LegalPut, LegalCut};
ghost use Rattle.nuc_base.specs.Renamed.{IsRenamed};
ghost use Rattle.nuc_base.specs.Trees.{IsThere, WellFormed};
ghost use Rattle.nuc_observe.specs.Keys.{AreKeys, HasAlone, IsUnheld};
ghost use Rattle.nuc_replica.specs.Local.{AreLocal, ChangedKeys, ChangedLocal, HaveKeys, KeepsLocal, handed_over, moved_key};
ghost use Rattle.nuc_replica.specs.Renaming.{CanRename};
ghost use Rattle.nuc_undo.specs.Laid.{StillLaid, with_node};

use crate::earlier::Earlier;
use crate::renaming::{nodes_renamed, rename};
use nuc_base::{Name, Node, NodeId, TreeLike};
use nuc_folder::Key;
use nuc_observe::{Keys, keys_are_one_to_one};
use nuc_undo::UndoTree;
use std::alloc::{AllocError, Global};
use std::marker::Model;
use std::mem;

/// The folder as a client last observed it: a tree, and the key of the folder that each of its identities has.
///
/// A change takes a fixed number of calls of the tree, and time in the number of keys where an identity comes or goes;
/// `back` makes as many changes as there are to take back.
#[derive(Drop)]
pub struct Local<T: TreeLike> {
    tree: UndoTree<T>,
    keys: Keys,
    /// What there was at the last `settle`, where all was replaced since. What lies by is in `tree` alone.
    before: Option<Earlier<T>>,
}

impl<T: TreeLike> Model for Local<T> {
    ghost use Rattle.nuc_replica.specs.Local.{AreLocal, LocalStates, locals_code, locals_of};

    ghost Value = { LocalStates };

    ghost coded = { locals_code };

    ghost view = { λ l. locals_of l.tree l.keys l.before };

    ghost invariant = { λ l. AreLocal (locals_of l.tree l.keys l.before) };
}

impl<T: TreeLike> Local<T> {
    /// What these make together, settled, with nothing laid by. It takes no memory.
    pub fn of(alloc: Global, tree: T, keys: Keys) -> Local<T>
        requires form { WellFormed (T.nodes tree) }
        requires keys { HaveKeys (T.nodes tree) keys.now }
        requires settled { keys.past ≡ [] }
        ensures now { result.now ≡ record { tree = T.nodes tree; keys = keys.now } }
        ensures settled { result.settled ≡ result.now }
        ensures laid { result.laid ≡ map.empty }
        ensures laid_then { result.laid_then ≡ map.empty }
    {
        keys_are_one_to_one(&keys);
        Local {
            tree: UndoTree::of(alloc, tree),
            keys,
            before: None,
        }
    }

    pub fn tree(&self) -> &T
        ensures nodes { T.nodes result.now ≡ self.now.now.tree }
        ensures sound { AreLocal self.now }
    {
        self.tree.tree()
    }

    pub fn keys(&self) -> &Keys
        ensures { result.now.now ≡ self.now.now.keys }
    {
        &self.keys
    }

    /// Makes room for that many more changes of one identity. Where the room is there already, it can't fail.
    pub fn reserve(&mut self, n: u64) -> Result<(), AllocError>
        ensures ok { OnOk result (n ≤ self.new.spare) }
        ensures keeps { KeepsLocal self.old self.new }
        ensures laid { self.new.laid ≡ self.old.laid }
        ensures laid_then { self.new.laid_then ≡ self.old.laid_then }
        ensures memory { OnErr result (self.old.spare < n) }
    {
        self.tree.reserve(n)?;
        self.keys.reserve(n)
    }

    /// Lays a node by under a number, as `UndoTree::lay_by` does.
    pub fn lay_by(&mut self, number: u64, node: Node) -> Result<(), AllocError>
        requires free { map.get self.old.laid number ≡ map.get self.old.laid_then number }
        requires fits { FitsKind node }
        ensures laid { OnOk result (self.new.laid ≡ map.insert self.old.laid number node) }
        ensures laid_then { OnOk result (self.new.laid_then ≡ map.insert self.old.laid_then number node) }
        ensures err_laid { OnErr result (self.new.laid ≡ self.old.laid) }
        ensures err_laid_then { OnErr result (self.new.laid_then ≡ self.old.laid_then) }
        ensures keeps { KeepsLocal self.old self.new }
    {
        self.tree.lay_by(number, node)
    }

    /// Gives an identity that isn't there this node and this key, where the node is known to be legal. It wants memory
    /// only when `spare` is 0.
    pub fn add(&mut self, id: NodeId, node: Node, key: Key) -> Result<(), AllocError>
        requires id { 0 < id.0 }
        requires absent { map.get self.old.now.tree id.0 ≡ None }
        requires fits { FitsKind node }
        requires legal { LegalPut self.old.now.tree id.0 node }
        requires key { 0 < key.0 }
        requires free { IsUnheld self.old.now.keys key.0 }
        ensures ok { OnOk result (self.new.now ≡ record { tree = map.insert self.old.now.tree id.0 node; keys = map.insert self.old.now.keys id.0 key.0 }) }
        ensures laid { self.new.laid ≡ self.old.laid }
        ensures changed { ChangedLocal self.old 1 self.new }
        ensures err { OnErr result (KeepsLocal self.old self.new) }
        ensures memory { OnErr result (self.old.spare ≡ 0) }
    {
        self.reserve(1)?;
        let Ok(()) = self.tree.put(id, node) else {
            unreachable!()
        };
        put_key(&mut self.keys, id, key);
        Ok(())
    }

    /// Gives an identity that is there another node, where that is known to be legal. It keeps its key. It wants memory
    /// only when `spare` is 0.
    pub fn put(&mut self, id: NodeId, node: Node) -> Result<(), AllocError>
        requires there { IsThere self.old.now.tree id.0 }
        requires fits { FitsKind node }
        requires legal { LegalPut self.old.now.tree id.0 node }
        ensures ok { OnOk result (self.new.now ≡ record self.old.now { tree = map.insert self.old.now.tree id.0 node }) }
        ensures laid { self.new.laid ≡ self.old.laid }
        ensures changed { ChangedLocal self.old 1 self.new }
        ensures err { OnErr result (KeepsLocal self.old self.new) }
        ensures memory { OnErr result (self.old.spare ≡ 0) }
    {
        self.reserve(1)?;
        let Ok(()) = self.tree.put(id, node) else {
            unreachable!()
        };
        Ok(())
    }

    /// Gives an identity that is there the node that is laid by under this number, where that is known to be legal. It
    /// keeps its key.
    pub fn put_laid(&mut self, number: u64, id: NodeId)
        requires there { IsThere self.old.now.tree id.0 }
        requires room { 0 < self.old.spare }
        requires legal { IsSomeAnd (map.get self.old.laid number) (λ node. LegalPut self.old.now.tree id.0 node) }
        ensures now { self.new.now ≡ record self.old.now { tree = with_node self.old.now.tree id.0 (map.get self.old.laid number) } }
        ensures laid { self.new.laid ≡ map.remove self.old.laid number }
        ensures changed { ChangedLocal self.old 1 self.new }
    {
        self.tree.put_laid(number, id);
    }

    /// The same for an identity that isn't there: it comes with this key.
    pub fn add_laid(&mut self, number: u64, id: NodeId, key: Key)
        requires id { 0 < id.0 }
        requires absent { map.get self.old.now.tree id.0 ≡ None }
        requires key { 0 < key.0 }
        requires free { IsUnheld self.old.now.keys key.0 }
        requires room { 0 < self.old.spare }
        requires legal { IsSomeAnd (map.get self.old.laid number) (λ node. LegalPut self.old.now.tree id.0 node) }
        ensures now { self.new.now ≡ record { tree = with_node self.old.now.tree id.0 (map.get self.old.laid number); keys = map.insert self.old.now.keys id.0 key.0 } }
        ensures laid { self.new.laid ≡ map.remove self.old.laid number }
        ensures changed { ChangedLocal self.old 1 self.new }
    {
        self.tree.put_laid(number, id);
        put_key(&mut self.keys, id, key);
    }

    /// Takes a node out of the tree that is known to be there without children, and its key with it.
    pub fn cut(&mut self, id: NodeId)
        requires room { 0 < self.old.spare }
        requires legal { LegalCut self.old.now.tree id.0 }
        ensures now { self.new.now ≡ record { tree = map.remove self.old.now.tree id.0; keys = map.remove self.old.now.keys id.0 } }
        ensures laid { self.new.laid ≡ self.old.laid }
        ensures changed { ChangedLocal self.old 1 self.new }
    {
        let Ok(()) = self.tree.cut(id) else {
            unreachable!()
        };
        cut_key(&mut self.keys, id);
    }

    /// Another identity comes, with the node that is laid by and the key of this one, and this one goes.
    pub fn hand_over(&mut self, number: u64, id: NodeId, to: NodeId)
        requires to { 0 < to.0 }
        requires absent { map.get self.old.now.tree to.0 ≡ None }
        requires room { 1 < self.old.spare }
        requires put { IsSomeAnd (map.get self.old.laid number) (λ node. LegalPut self.old.now.tree to.0 node) }
        requires cut { LegalCut (with_node self.old.now.tree to.0 (map.get self.old.laid number)) id.0 }
        requires other { id.0 ≢ to.0 }
        ensures now { self.new.now ≡ handed_over self.old.now id.0 to.0 (map.get self.old.laid number) }
        ensures laid { self.new.laid ≡ map.remove self.old.laid number }
        ensures changed { ChangedLocal self.old 2 self.new }
    {
        let Some(key) = self.keys.key_of(id) else {
            unreachable!()
        };
        self.tree.put_laid(number, to);
        let Ok(()) = self.tree.cut(id) else {
            unreachable!()
        };
        cut_key(&mut self.keys, id);
        put_key(&mut self.keys, to, key);
    }

    /// Another identity that isn't there comes in place of this one, with this node: it has its place, its children and its
    /// key, and this one goes. On the way this one stands under a name that nobody has beside it. What it takes of the room
    /// grows with the number of children.
    pub fn rename(
        &mut self,
        alloc: Global,
        id: NodeId,
        to: NodeId,
        node: Node,
        aside: Name,
    ) -> Result<(), AllocError>
        requires { CanRename self.old.now.tree id.0 to.0 node aside }
        ensures tree { OnOk result (IsRenamed self.old.now.tree id.0 to.0 node self.new.now.tree) }
        ensures keys { OnOk result (self.new.now.keys ≡ moved_key self.old.now.keys id.0 to.0 (map.get self.old.now.keys id.0)) }
        ensures laid { self.new.laid ≡ self.old.laid }
        ensures laid_then { self.new.laid_then ≡ self.old.laid_then }
        ensures settled { self.new.settled ≡ self.old.settled }
        ensures spare_then { self.old.spare_then ≤ self.new.spare_then }
        ensures err { OnErr result (KeepsLocal self.old self.new) }
    {
        let nodes = nodes_renamed(alloc, self.tree.tree(), id, to, aside)?;
        let changes = (nodes.children.len() as u64)
            .checked_add(3)
            .ok_or(AllocError)?;
        self.reserve(changes)?;
        let Some(held) = self.keys.key_of(id) else {
            unreachable!()
        };
        rename(&mut self.tree, id, to, node, nodes);
        cut_key(&mut self.keys, id);
        put_key(&mut self.keys, to, held);
        Ok(())
    }
}

/// Calls that let a tree go.
impl<T: TreeLike + Drop> Local<T> {
    /// This tree with these keys comes in place of what there is now, with room for that many changes. What was put from
    /// the nodes laid by is laid by again, and no other is copied or moved.
    pub fn replace(
        &mut self,
        alloc: Global,
        tree: T,
        mut keys: Keys,
        room: u64,
    ) -> Result<(), AllocError>
        requires form { WellFormed (T.nodes tree) }
        requires keys { HaveKeys (T.nodes tree) keys.now }
        requires settled { keys.past ≡ [] }
        ensures now { OnOk result (self.new.now ≡ record { tree = T.nodes tree; keys = keys.now }) }
        ensures laid { OnOk result (self.new.laid ≡ self.old.laid_then) }
        ensures still { StillLaid self.old.laid self.new.laid }
        ensures laid_then { self.new.laid_then ≡ self.old.laid_then }
        ensures settled { self.new.settled ≡ self.old.settled }
        ensures spare { OnOk result (room ≤ self.new.spare) }
        ensures spare_then { self.old.spare_then ≤ self.new.spare_then }
        ensures err { OnErr result (KeepsLocal self.old self.new) }
        ensures err_laid { OnErr result (self.new.laid ≡ self.old.laid) }
    {
        let mut tree = UndoTree::of(alloc, tree);
        tree.reserve(room)?;
        keys.reserve(room)?;
        self.exchange(tree, keys);
        Ok(())
    }

    /// The same for a tree and keys that are settled, with nothing laid by. It takes no memory.
    fn exchange(&mut self, mut tree: UndoTree<T>, mut keys: Keys)
        requires tree { tree.past ≡ [] }
        requires keys { keys.past ≡ [] }
        requires follow { HaveKeys tree.now keys.now }
        ensures now { self.new.now ≡ record { tree = tree.now; keys = keys.now } }
        ensures laid { self.new.laid ≡ self.old.laid_then }
        ensures still { StillLaid self.old.laid self.new.laid }
        ensures laid_then { self.new.laid_then ≡ self.old.laid_then }
        ensures settled { self.new.settled ≡ self.old.settled }
        ensures spare { min tree.spare keys.spare ≤ self.new.spare }
        ensures spare_then { self.old.spare_then ≤ self.new.spare_then }
    {
        keys_are_one_to_one(&keys);
        let _laid = self.tree.tree();
        mem::swap(&mut self.tree, &mut tree);
        mem::swap(&mut self.keys, &mut keys);
        tree.back();
        keys.back();
        tree.swap_laid(&mut self.tree);
        if self.before.is_none() {
            self.before = Some(Earlier::of(tree, keys));
        }
    }

    /// What there is now is what `back` leads to, and what was put from those laid by doesn't go back to them. It takes no
    /// memory.
    pub fn settle(&mut self)
        ensures now { self.new.now ≡ self.old.now }
        ensures settled { self.new.settled ≡ self.old.now }
        ensures laid { self.new.laid ≡ self.old.laid }
        ensures laid_then { self.new.laid_then ≡ self.old.laid }
        ensures spare { self.old.spare ≤ self.new.spare }
        ensures spare_then { self.old.spare ≤ self.new.spare_then }
    {
        self.before = None;
        self.tree.settle();
        self.keys.settle();
    }

    /// The same, and drops all nodes that are laid by. It takes no memory.
    pub fn settle_and_forget(&mut self)
        ensures now { self.new.now ≡ self.old.now }
        ensures settled { self.new.settled ≡ self.old.now }
        ensures laid { self.new.laid ≡ map.empty }
        ensures laid_then { self.new.laid_then ≡ map.empty }
        ensures spare { self.old.spare ≤ self.new.spare }
        ensures spare_then { self.old.spare ≤ self.new.spare_then }
    {
        self.before = None;
        self.tree.settle();
        self.tree.forget_laid();
        self.keys.settle();
    }

    /// Takes back all changes since the last settling, or since this was made. What they put from the nodes laid by is
    /// laid by again. It takes no memory, and what the changes took of `spare` is there again.
    pub fn back(&mut self)
        ensures now { self.new.now ≡ self.old.settled }
        ensures settled { self.new.settled ≡ self.old.settled }
        ensures laid { self.new.laid ≡ self.old.laid_then }
        ensures laid_then { self.new.laid_then ≡ self.old.laid_then }
        ensures spare { self.old.spare_then ≤ self.new.spare }
        ensures spare_then { self.old.spare_then ≤ self.new.spare_then }
    {
        self.tree.back();
        self.keys.back();
        if let Some(before) = self.before.take() {
            let (mut tree, keys) = before.parts();
            self.tree.swap_laid(&mut tree);
            self.tree = tree;
            self.keys = keys;
        }
    }
}

/// Gives an identity a key that nobody has, where there is room for it.
fn put_key(keys: &mut Keys, id: NodeId, key: Key)
    requires id { 0 < id.0 }
    requires key { 0 < key.0 }
    requires free { IsUnheld keys.old.now key.0 }
    requires room { 0 < keys.old.spare }
    ensures now { keys.new.now ≡ map.insert keys.old.now id.0 key.0 }
    ensures sound { AreKeys keys.new.now }
    ensures changed { ChangedKeys keys.old keys.new }
{
    let Ok(()) = keys.put(id, key) else {
        unreachable!()
    };
    keys_are_one_to_one(keys);
}

/// Takes its key from an identity, where there is room to note that.
fn cut_key(keys: &mut Keys, id: NodeId)
    requires room { 0 < keys.old.spare }
    ensures now { keys.new.now ≡ map.remove keys.old.now id.0 }
    ensures freed { (k : ℕ) → HasAlone keys.old.now id.0 k → IsUnheld keys.new.now k }
    ensures sound { AreKeys keys.new.now }
    ensures changed { ChangedKeys keys.old keys.new }
{
    let Ok(()) = keys.cut(id) else { unreachable!() };
    keys_are_one_to_one(keys);
}
