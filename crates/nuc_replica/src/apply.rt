ghost use Rattle.std.specs.Prelude.{◌≡◌, ◌≢◌, ◌<◌, ◌≤◌, ◌+◌, ◌^◌, ℕ, length, IfOk, IfSome, OnOk, OnErr};
ghost use Rattle.std.specs.FinMap as map;
ghost use Rattle.nuc_base.specs.Kinds.{FitsKind};
ghost use Rattle.nuc_journal.specs.Entries.{with_value};
ghost use Rattle.nuc_journal.specs.Journal.{IsLegalValue};
ghost use Rattle.nuc_lookup.specs.State as lookup;
ghost use Rattle.nuc_undo.specs.State.{settled_of};
ghost use Rattle.nuc_undo.specs.Steps.{Changed, Keeps, KeepsTree};
ghost use Rattle.nuc_replica.specs.Ahead.{AreLaidFrom, AreUntaken, Lies, NodesFit};
ghost use Rattle.nuc_replica.specs.Remote.{with_revision};

use nuc_base::{Node, TreeLike};
use nuc_journal::Entry;
use nuc_lookup::UndoLookup;
use nuc_undo::UndoTree;
use std::alloc::{AllocError, Global};

/// Makes an entry's change of the tree, with a copy of its node.
pub fn apply<T: TreeLike>(
    alloc: Global,
    tree: &mut UndoTree<T>,
    entry: &Entry,
) -> Result<(), AllocError>
    requires id { 0 < entry.now.id.0 }
    requires legal { IsLegalValue tree.old.now entry.now.id.0 entry.now.value }
    ensures ok { OnOk result (tree.new.now ≡ with_value tree.old.now entry.now.id.0 entry.now.value) }
    ensures changed { OnOk result (Changed tree.old entry.now.id.0 tree.new) }
    ensures laid { OnOk result (tree.new.laid ≡ tree.old.laid) }
    ensures settled { settled_of tree.new ≡ settled_of tree.old }
    ensures err { OnErr result (Keeps tree.old tree.new) }
{
    match &entry.value {
        Some(node) => tree.put(entry.id, node.copy(alloc)?),
        None => tree.cut(entry.id),
    }
}

/// Makes an entry's change of the tree, where its node lies under this number. It takes no memory.
pub fn apply_laid<T: TreeLike>(tree: &mut UndoTree<T>, number: u64, entry: &Entry)
    requires id { 0 < entry.now.id.0 }
    requires legal { IsLegalValue tree.old.now entry.now.id.0 entry.now.value }
    requires lies { Lies tree.old.laid number entry.now.value }
    requires room { 0 < tree.old.spare }
    ensures now { tree.new.now ≡ with_value tree.old.now entry.now.id.0 entry.now.value }
    ensures changed { Changed tree.old entry.now.id.0 tree.new }
    ensures laid { (i : ℕ) → i ≢ number → map.get tree.new.laid i ≡ map.get tree.old.laid i }
    ensures settled { settled_of tree.new ≡ settled_of tree.old }
{
    match &entry.value {
        Some(_) => tree.put_laid(number, entry.id),
        None => {
            let Ok(()) = tree.cut(entry.id) else {
                unreachable!()
            };
        }
    }
}

/// Gives the entry's identity its revision, or takes its own from it where the node went. It takes no memory.
pub fn note(revisions: &mut UndoLookup, entry: &Entry)
    requires { 0 < revisions.old.spare }
    ensures now { revisions.new.now ≡ with_revision revisions.old.now entry.now.id.0 entry.now.value entry.now.rev }
    ensures past { length revisions.new.past ≡ length revisions.old.past + 1 }
    ensures spare { revisions.old.spare ≤ revisions.new.spare + 1 }
    ensures settled { lookup.settled_of revisions.new ≡ lookup.settled_of revisions.old }
{
    let noted = match &entry.value {
        Some(_) => revisions.put(entry.id.0, entry.rev),
        None => revisions.cut(entry.id.0),
    };
    let Ok(()) = noted else { unreachable!() };
}

/// Copies of these entries.
pub fn copies(alloc: Global, entries: &[Entry]) -> Result<Vec<Entry>, AllocError>
    ensures { IfOk result (λ copies. copies.items ≡ entries.now) }
{
    let mut copies = Vec::with_capacity(alloc, entries.len())?;
    for entry in entries {
        copies.push(entry.copy(alloc)?)?;
    }
    Ok(copies)
}

/// Lays copies of the nodes of these entries by, each under its place behind the first.
pub fn lay_by<T: TreeLike>(
    alloc: Global,
    tree: &mut UndoTree<T>,
    first: u64,
    entries: &[Entry],
) -> Result<(), AllocError>
    requires fit { NodesFit entries.now }
    requires untaken { AreUntaken tree.old first }
    requires places { first + length entries.now < 2 ^ 64 }
    ensures ok { OnOk result (AreLaidFrom first tree.new.laid entries.now) }
    ensures before { (i : ℕ) → i < first → map.get tree.new.laid i ≡ map.get tree.old.laid i }
    ensures before_then { (i : ℕ) → i < first → map.get tree.new.laid_then i ≡ map.get tree.old.laid_then i }
    ensures untaken { AreUntaken tree.new first }
    ensures keeps { KeepsTree tree.old tree.new }
{
    for (i, entry) in entries.iter().enumerate() {
        lay_one(alloc, tree, first + i as u64, &entry.value)?;
    }
    Ok(())
}

/// Lays a copy of a node by under this number, where there is one.
fn lay_one<T: TreeLike>(
    alloc: Global,
    tree: &mut UndoTree<T>,
    number: u64,
    value: &Option<Node>,
) -> Result<(), AllocError>
    requires fits { IfSome value.now FitsKind }
    requires free { map.get tree.old.laid number ≡ map.get tree.old.laid_then number }
    ensures ok { OnOk result (Lies tree.new.laid number value.now) }
    ensures free { map.get tree.new.laid number ≡ map.get tree.new.laid_then number }
    ensures others { (i : ℕ) → i ≢ number → map.get tree.new.laid i ≡ map.get tree.old.laid i }
    ensures others_then { (i : ℕ) → i ≢ number → map.get tree.new.laid_then i ≡ map.get tree.old.laid_then i }
    ensures keeps { KeepsTree tree.old tree.new }
{
    match value {
        Some(node) => {
            tree.lay_by(number, node.copy(alloc)?)?;
            Ok(())
        }
        None => Ok(()),
    }
}
