ghost use Rattle.std.specs.Prelude.{◌≡◌, ◌≢◌, ◌≤◌, ◌<◌, ◌+◌, ℕ, Some, None, IfOk, IfErr, OnOk, OnErr, IsErrOf, IfSome, IsSomeAnd, MatchBool, MatchOption, option_copied, option_map, slice_get};
ghost use Rattle.std.specs.FinMap as map;
ghost use Rattle.nuc_base.specs.Faults.{PutFaulty, CutFaulty};
ghost use Rattle.nuc_base.specs.Kinds.{FitsKind};
ghost use Rattle.nuc_base.specs.Legal.{LegalPut, LegalCut};
ghost use Rattle.nuc_base.specs.Room.{room_for};
ghost use Rattle.nuc_base.specs.declared.node.Place.{Place};
ghost use Rattle.nuc_base.specs.Trees.{Nodes, WellFormed, IsUnder, IsVacant, StandsAt, HasChild, NoChild, children};

use crate::{CutFault, Kind, Name, Node, NodeId, PutFault};
use std::alloc::{AllocError, Global};

/// A tree of files and folders: which node stands at which identity.
///
/// What changes a tree keeps it well formed, and a refusal leaves it as it was. `spare` counts the nodes that can be
/// added before memory may be wanted.
pub trait TreeLike {
    ghost nodes: { Self → Nodes };

    ghost spare: { Self → ℕ };

    /// The tree of nothing but the root.
    fn empty(alloc: Global) -> Result<Self, AllocError>
        ensures empty { IfOk result (λ t. nodes t ≡ map.empty) }
        ensures tree { IfOk result (λ t. WellFormed (nodes t)) };

    /// The node of an identity. The root has none.
    fn get(&self, id: NodeId) -> Option<&Node>
        ensures { option_copied result ≡ map.get (nodes self.now) id.0 };

    /// Who has this place.
    fn at(&self, parent: NodeId, name: &Name) -> Option<NodeId>
        ensures { let place : Place = record { parent = parent; name = name.now } in MatchOption result (IsVacant (nodes self.now) place) (λ x. StandsAt (nodes self.now) x.0 place) };

    /// Whether a node has this parent.
    fn has_child(&self, id: NodeId) -> bool
        ensures { MatchBool result (HasChild (nodes self.now) id.0) (NoChild (nodes self.now) id.0) };

    /// The child at this position among the children of `id`, from 0, in rising order of identity. The root's are
    /// those of identity 0.
    fn child(&self, id: NodeId, i: u64) -> Option<NodeId>
        ensures { option_map (λ x. x.0) result ≡ slice_get (children (nodes self.now) id.0) i };

    /// The identity at this position, from 0, in rising order.
    fn nth(&self, i: u64) -> Option<NodeId>
        ensures { option_map (λ x. x.0) result ≡ slice_get (map.keys (nodes self.now)) i };

    /// The number of nodes; the root isn't one.
    fn len(&self) -> u64
        ensures { result ≡ map.len (nodes self.now) };

    /// Makes room for that many more nodes, which a `put` may then take without memory. Where the room is there
    /// already, it can't fail; a number too great to be had is want of memory.
    fn reserve(&mut self, n: u64) -> Result<(), AllocError>
        ensures ok { OnOk result (n ≤ spare self.new) }
        ensures nodes { nodes self.new ≡ nodes self.old }
        ensures tree { WellFormed (nodes self.old) → WellFormed (nodes self.new) }
        ensures memory { OnErr result (spare self.old < n) }
        ensures spare { spare self.old ≤ spare self.new };

    /// Gives an identity a node, and hands over the one that it had. It wants memory only when `spare` is 0.
    fn put(&mut self, id: NodeId, node: Node) -> Result<Option<Node>, PutFault>
        requires tree { WellFormed (nodes self.old) }
        requires id { 0 < id.0 }
        requires fits { FitsKind node }
        ensures ok { OnOk result (LegalPut (nodes self.old) id.0 node × (nodes self.new ≡ map.insert (nodes self.old) id.0 node)) }
        ensures before { IfOk result (λ before. before ≡ map.get (nodes self.old) id.0) }
        ensures tree { WellFormed (nodes self.new) }
        ensures fault { IfErr result (λ e. PutFaulty (nodes self.old) id.0 node e) }
        ensures err { OnErr result (nodes self.new ≡ nodes self.old) }
        ensures memory { IsErrOf result PutFault.Memory → spare self.old ≡ 0 }
        ensures spare { OnOk result (spare self.old ≤ spare self.new + room_for (map.get (nodes self.old) id.0)) }
        ensures spare_err { OnErr result (spare self.old ≤ spare self.new) };

    /// Takes a node without children out of the tree, and hands it over. Its room is spare then.
    fn cut(&mut self, id: NodeId) -> Result<Node, CutFault>
        ensures ok { OnOk result (LegalCut (nodes self.old) id.0 × (nodes self.new ≡ map.remove (nodes self.old) id.0)) }
        ensures node { IfOk result (λ n. map.get (nodes self.old) id.0 ≡ Some n) }
        ensures tree { WellFormed (nodes self.old) → WellFormed (nodes self.new) }
        ensures fault { IfErr result (λ e. CutFaulty (nodes self.old) id.0 e) }
        ensures err { OnErr result (nodes self.new ≡ nodes self.old) }
        ensures spare { spare self.old ≤ spare self.new }
        ensures freed { OnOk result (spare self.old < spare self.new) };

    /// Whether `a` is `b` or stands below it.
    fn under(&self, a: NodeId, b: NodeId) -> bool
        ensures { MatchBool result (IsUnder (nodes self.now) a.0 b.0) (¬ (IsUnder (nodes self.now) a.0 b.0)) }
    {
        let mut at = a;
        for _ in 0..self.len() {
            if at == b {
                return true;
            }
            match self.get(at) {
                Some(node) => at = node.place.parent,
                None => return false,
            }
        }
        at == b
    }

    /// How `put` would answer if memory were there.
    fn check_put(&self, id: NodeId, node: &Node) -> Result<(), PutFault>
        requires tree { WellFormed (nodes self.now) }
        requires id { 0 < id.0 }
        requires fits { FitsKind node.now }
        ensures ok { OnOk result (LegalPut (nodes self.now) id.0 node.now) }
        ensures fault { IfErr result (λ e. PutFaulty (nodes self.now) id.0 node.now e) }
        ensures memory { ¬ (IsErrOf result PutFault.Memory) }
    {
        if has_other_kind(self.get(id), node.kind) {
            return Err(PutFault::KindChanged);
        }
        let parent = node.place.parent;
        if parent != NodeId(0) && !is_folder(self.get(parent)) {
            return Err(PutFault::NoParent);
        }
        if let Some(other) = someone_else(self.at(parent, &node.place.name), id) {
            return Err(PutFault::Taken(other));
        }
        if self.under(parent, id) {
            return Err(PutFault::Cycle);
        }
        Ok(())
    }
}

fn has_other_kind(node: Option<&Node>, kind: Kind) -> bool
    ensures { MatchBool result (IsSomeAnd (option_copied node.entry) (λ n. n.kind ≢ kind)) (IfSome (option_copied node.entry) (λ n. n.kind ≡ kind)) }
{
    match node {
        Some(node) => node.kind != kind,
        None => false,
    }
}

fn is_folder(node: Option<&Node>) -> bool
    ensures { MatchBool result (IsSomeAnd (option_copied node.entry) (λ n. n.kind ≡ Kind.Folder)) (IfSome (option_copied node.entry) (λ n. n.kind ≢ Kind.Folder)) }
{
    match node {
        Some(node) => node.kind == Kind::Folder,
        None => false,
    }
}

/// The identity that was found, where it isn't `id`.
fn someone_else(found: Option<NodeId>, id: NodeId) -> Option<NodeId>
    ensures { MatchOption result (IfSome found (λ x. x.0 ≡ id.0)) (λ x. (found ≡ Some x) × (x.0 ≢ id.0)) }
{
    match found {
        Some(other) if other != id => found,
        _ => None,
    }
}
