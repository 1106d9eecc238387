ghost use Rattle.std.specs.Prelude.{◌≡◌, ◌<◌, OnOk, IfOk};
ghost use Rattle.nuc_base.specs.Trees.{WellFormed};
ghost use Rattle.nuc_journal.specs.Entries.{with_value, tree_of};
ghost use Rattle.nuc_journal.specs.Journal.{IsLegalValue, IsJournal};

use crate::Entry;
use nuc_base::{cut_legal, put_legal};
use nuc_tree::Tree;
use std::alloc::{AllocError, Global};

/// The tree at the last of these entries.
pub fn tree_of_entries(alloc: Global, entries: &[Entry]) -> Result<Tree, AllocError>
    requires { IsJournal entries.now }
    ensures nodes { IfOk result (λ tree. tree.nodes ≡ tree_of entries.now) }
    ensures form { IfOk result (λ tree. WellFormed tree.nodes) }
{
    let mut tree = Tree::new(alloc);
    for entry in entries {
        apply(alloc, &mut tree, entry)?;
    }
    Ok(tree)
}

/// Makes a legal entry's change of the tree before it. Only memory can be wanted.
fn apply(alloc: Global, tree: &mut Tree, entry: &Entry) -> Result<(), AllocError>
    requires form { WellFormed tree.old.nodes }
    requires id { 0 < entry.now.id.0 }
    requires legal { IsLegalValue tree.old.nodes entry.now.id.0 entry.now.value }
    ensures nodes { OnOk result (tree.new.nodes ≡ with_value tree.old.nodes entry.now.id.0 entry.now.value) }
    ensures form { WellFormed tree.new.nodes }
{
    match &entry.value {
        Some(node) => {
            put_legal(tree, entry.id, node.copy(alloc)?)?;
        }
        None => {
            cut_legal(tree, entry.id);
        }
    }
    Ok(())
}
