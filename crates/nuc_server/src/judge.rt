ghost use Rattle.std.specs.Prelude.{◌≡◌, ◌<◌, ◌⊎◌, MatchBool, MatchResult, Some, None, Option};
ghost use Rattle.std.specs.Option.{option_copied};
ghost use Rattle.nuc_base.specs.Legal.{SameKind};
ghost use Rattle.nuc_base.specs.Trees.{IsThere, WellFormed};
ghost use Rattle.nuc_blocks.specs.Blocks.{first_missing};
ghost use Rattle.nuc_journal.specs.Journal.{HasOldKind, IsJournal, IsLegalValue};
ghost use Rattle.nuc_journal.specs.Entries.{tree_of};
ghost use Rattle.nuc_server.specs.Judge.{FitsValue, HasKindOf, IsAccepted, IsCommit, IsRefused, IsThereToGo, IsUnlawful, blocks_with};

use crate::{Commit, Refusal};
use nuc_base::{Kind, Node, NodeId, PutFault, TreeLike};
use nuc_blocks::Store;
use nuc_hash::{Content, Digest};
use nuc_journal::Journal;

/// The first reason why a commit isn't accepted, if there is one.
pub fn judge<T: TreeLike>(
    journal: &Journal,
    tree: &T,
    store: &Store,
    commit: &Commit,
    content: Option<&Content>,
) -> Result<(), Refusal>
    requires journal { IsJournal journal.now.now }
    requires tree { T.nodes tree.now ≡ tree_of journal.now.now }
    requires commit { IsCommit commit.now }
    ensures { MatchResult result (λ _. IsAccepted journal.now.now store.now.now commit.now (blocks_with (option_copied content.entry))) (λ reason. IsRefused journal.now.now store.now.now commit.now (blocks_with (option_copied content.entry)) reason) }
{
    let current = journal.rev_of(commit.id);
    if commit.base != current {
        return Err(Refusal::Stale(current));
    }
    if has_other_kind(journal.kind_of(commit.id), &commit.value) {
        return Err(Refusal::KindChanged);
    }
    check_value(tree, commit.id, &commit.value)?;
    match first_lacking(store, content) {
        Some(digest) => Err(Refusal::NoBlock(digest)),
        None => Ok(()),
    }
}

/// Whether a node is of another kind than the one that its identity has or had.
fn has_other_kind(had: Option<Kind>, value: &Option<Node>) -> bool
    ensures { MatchBool result (¬ (HasKindOf had value.now)) (HasKindOf had value.now) }
{
    match (had, value) {
        (Some(kind), Some(node)) => node.kind != kind,
        _ => false,
    }
}

/// The first reason why a tree doesn't allow a value, if there is one.
fn check_value<T: TreeLike>(tree: &T, id: NodeId, value: &Option<Node>) -> Result<(), Refusal>
    requires form { WellFormed (T.nodes tree.now) }
    requires id { 0 < id.0 }
    requires fits { FitsValue value.now }
    requires there { IsThereToGo (T.nodes tree.now) id.0 value.now }
    ensures { MatchResult result (λ _. IsLegalValue (T.nodes tree.now) id.0 value.now) (IsUnlawful (T.nodes tree.now) id.0 value.now) }
{
    match value {
        Some(node) => check_node(tree, id, node),
        None if tree.has_child(id) => Err(Refusal::NotEmpty),
        None => Ok(()),
    }
}

fn check_node<T: TreeLike>(tree: &T, id: NodeId, node: &Node) -> Result<(), Refusal>
    requires form { WellFormed (T.nodes tree.now) }
    requires id { 0 < id.0 }
    requires fits { FitsValue (Some node.now) }
    requires kind { SameKind (T.nodes tree.now) id.0 node.now.kind }
    ensures { MatchResult result (λ _. IsLegalValue (T.nodes tree.now) id.0 (Some node.now)) (IsUnlawful (T.nodes tree.now) id.0 (Some node.now)) }
{
    match tree.check_put(id, node) {
        Ok(()) => Ok(()),
        Err(PutFault::NoParent) => Err(Refusal::NoParent),
        Err(PutFault::Taken(other)) => Err(Refusal::Taken(other)),
        Err(PutFault::Cycle) => Err(Refusal::Cycle),
        Err(PutFault::KindChanged | PutFault::Memory) => unreachable!(),
    }
}

/// The first block of a content that the store lacks.
fn first_lacking(store: &Store, content: Option<&Content>) -> Option<Digest>
    ensures { result ≡ first_missing store.now.now (blocks_with (option_copied content.entry)) }
{
    match content {
        Some(content) => store.first_missing(content.blocks()),
        None => None,
    }
}
