ghost use Rattle.std.specs.Prelude.{◌≡◌, ◌≢◌, IfSome, IsSomeAnd, MatchBool, MatchOption, option_copied};
ghost use Rattle.std.specs.FinMap.{get};
ghost use Rattle.nuc_base.specs.SamePlace.{SamePlace};
ghost use Rattle.nuc_base.specs.Trees.{IsFolder, IsVacant, WellFormed};
ghost use Rattle.nuc_paths.specs.Paths.{LeadsNowhere, LeadsNowhereOn, LeadsOn, LeadsTo, place_in};

use nuc_base::{Kind, Name, Node, NodeId, TreeLike};

/// The place to which names lead from the root: the folder, and the name below it.
pub fn follow<'a, T: TreeLike>(tree: &T, names: &'a [Name]) -> Option<(NodeId, &'a Name)>
    requires { WellFormed (T.nodes tree.now) }
    ensures { MatchOption result (LeadsNowhere (T.nodes tree.now) 0 names.now) (λ at. LeadsTo (T.nodes tree.now) 0 names.now (place_in at.0.0 at.1.now)) }
{
    match names {
        [] => None,
        [name, rest @ ..] => follow_on(tree, NodeId(0), name, rest),
    }
}

/// The place to which a name leads from a folder with those that follow it.
fn follow_on<'a, T: TreeLike>(
    tree: &T,
    from: NodeId,
    name: &'a Name,
    rest: &'a [Name],
) -> Option<(NodeId, &'a Name)>
    requires { WellFormed (T.nodes tree.now) }
    ensures { MatchOption result (LeadsNowhereOn (T.nodes tree.now) from.0 name.now rest.now) (λ at. LeadsOn (T.nodes tree.now) from.0 name.now rest.now (place_in at.0.0 at.1.now)) }
{
    match rest {
        [] if is_folder(tree, from) => Some((from, name)),
        [] => None,
        [next, rest @ ..] => match tree.at(from, name) {
            Some(below) => follow_on(tree, below, next, rest),
            None => None,
        },
    }
}

/// Whether an identity is the root or a folder.
fn is_folder<T: TreeLike>(tree: &T, id: NodeId) -> bool
    ensures { MatchBool result (IsFolder (T.nodes tree.now) id.0) (¬ (IsFolder (T.nodes tree.now) id.0)) }
{
    id == NodeId(0) || has_kind(tree.get(id), Kind::Folder)
}

fn has_kind(node: Option<&Node>, kind: Kind) -> bool
    ensures { MatchBool result (IsSomeAnd (option_copied node.entry) (λ n. n.kind ≡ kind)) (IfSome (option_copied node.entry) (λ n. n.kind ≢ kind)) }
{
    match node {
        Some(node) => node.kind == kind,
        None => false,
    }
}

/// Who has the place of this name below a folder, and the node.
pub fn holder<'a, T: TreeLike>(
    tree: &'a T,
    parent: NodeId,
    name: &Name,
) -> Option<(NodeId, &'a Node)>
    ensures { MatchOption result
        (IsVacant (T.nodes tree.now) (place_in parent.0 name.now))
        (λ held. (get (T.nodes tree.now) held.0.0 ≡ Some held.1.now) × SamePlace held.1.now.place (place_in parent.0 name.now)) }
{
    let id = tree.at(parent, name)?;
    match tree.get(id) {
        Some(node) => Some((id, node)),
        None => unreachable!(),
    }
}
