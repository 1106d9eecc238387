ghost use Rattle.std.specs.Prelude.{◌<◌};
ghost use Rattle.nuc_base.specs.Kinds.{FitsKind};
ghost use Rattle.nuc_base.specs.Trees.{WellFormed};

use crate::fault::Fault;
use crate::layout::{self, FILES};
use nuc_base::{Node, NodeId, TreeLike, Ver};
use nuc_index::IndexTree;
use nuc_tree::Tree;
use std::alloc::{AllocError, Global};

/// How far it is from one node to the next in an order that jumps: a prime, so that each node comes once in trees of
/// 1,000, 10,000 and 100,000.
const JUMP: u64 = 7_919;

/// What is asked of a tree, for each of its nodes once.
#[derive(Clone, Copy, Debug, PartialEq, Eq)]
enum Ask {
    /// Nothing more than that all are put.
    Put,
    /// Who has the node's place.
    At,
    /// A child of the node's parent.
    Child,
    /// Whether the node stands below the first folder.
    Under,
    /// That it goes, from the last to the first.
    Cut,
    /// That it goes if it is a file, in an order that jumps.
    Shuffle,
}

impl Ask {
    fn named(word: &str) -> Option<Ask> {
        match word {
            "put" => Some(Ask::Put),
            "at" => Some(Ask::At),
            "child" => Some(Ask::Child),
            "under" => Some(Ask::Under),
            "cut" => Some(Ask::Cut),
            "shuffle" => Some(Ask::Shuffle),
            _ => None,
        }
    }
}

/// Puts so many nodes into a tree of this kind, and asks something of each.
pub(crate) fn ask_each(alloc: Global, kind: &str, word: &str, count: u64) -> Result<String, Fault> {
    let asked = Ask::named(word).ok_or(Fault::Usage)?;
    let answers = match kind {
        "plain" => filled::<Tree>(alloc, asked, count)?,
        "index" => filled::<IndexTree>(alloc, asked, count)?,
        _ => return Err(Fault::Usage),
    };
    Ok(format!(in alloc; "{word} {answers}")?)
}

fn filled<T: TreeLike + Drop>(alloc: Global, asked: Ask, count: u64) -> Result<u64, Fault> {
    let mut tree = T::empty(alloc)?;
    fill(alloc, &mut tree, count)?;
    match asked {
        Ask::Put => Ok(tree.len()),
        Ask::Cut | Ask::Shuffle => cut_all(&mut tree, asked),
        Ask::At | Ask::Child | Ask::Under => ask_all(&tree, asked),
    }
}

/// Folders with their files, so many nodes in all.
fn fill<T: TreeLike>(alloc: Global, tree: &mut T, count: u64) -> Result<(), Fault>
    requires { WellFormed (T.nodes tree.old) }
{
    let mut parent = NodeId(0);
    for number in 0..count {
        if number % (FILES + 1) == 0 {
            parent = put(tree, layout::folder(alloc, number)?)?;
        } else {
            put(tree, layout::file(alloc, parent, number, Ver(number + 1))?)?;
        }
    }
    Ok(())
}

/// Puts a node under the next identity.
fn put<T: TreeLike>(tree: &mut T, node: Node) -> Result<NodeId, Fault>
    requires form { WellFormed (T.nodes tree.old) }
    requires fits { FitsKind node }
    ensures { WellFormed (T.nodes tree.new) }
{
    let id = NodeId(tree.len().checked_add(1).ok_or(AllocError)?);
    tree.put(id, node)?;
    Ok(id)
}

/// How many answers there are.
fn ask_all<T: TreeLike>(tree: &T, asked: Ask) -> Result<u64, Fault> {
    let mut answers: u64 = 0;
    for i in 0..tree.len() {
        if answered(tree, asked, i) {
            answers = answers.checked_add(1).ok_or(AllocError)?;
        }
    }
    Ok(answers)
}

/// Whether something is answered of the node at this position.
fn answered<T: TreeLike>(tree: &T, asked: Ask, i: u64) -> bool {
    let Some(id) = tree.nth(i) else { return false };
    let Some(node) = tree.get(id) else {
        return false
    };
    let place = &node.place;
    match asked {
        Ask::At => tree.at(place.parent, &place.name) == Some(id),
        Ask::Child => tree.child(place.parent, i % FILES).is_some(),
        _ => tree.under(id, NodeId(1)),
    }
}

/// How many nodes go.
fn cut_all<T: TreeLike>(tree: &mut T, asked: Ask) -> Result<u64, Fault> {
    let count = tree.len();
    let mut cut: u64 = 0;
    for i in 0..count {
        let gone = match asked {
            Ask::Shuffle => cut_file(tree, jumped(i, count)?),
            _ => cut_last(tree),
        };
        if gone {
            cut = cut.checked_add(1).ok_or(AllocError)?;
        }
    }
    Ok(cut)
}

/// Whether the last node is there and goes.
fn cut_last<T: TreeLike>(tree: &mut T) -> bool {
    let Some(at) = tree.len().checked_sub(1) else {
        return false;
    };
    match tree.nth(at) {
        Some(id) => tree.cut(id).is_ok(),
        None => false,
    }
}

/// The number that comes at this turn, of so many, in an order that jumps.
fn jumped(i: u64, count: u64) -> Result<u64, AllocError>
    requires { 0 < count }
{
    let far = i.checked_mul(JUMP).ok_or(AllocError)?;
    Ok(far % count)
}

/// Whether the node of this number is a file that is there, and goes.
fn cut_file<T: TreeLike>(tree: &mut T, number: u64) -> bool {
    if number % (FILES + 1) == 0 {
        return false;
    }
    match number.checked_add(1) {
        Some(id) => tree.cut(NodeId(id)).is_ok(),
        None => false,
    }
}
