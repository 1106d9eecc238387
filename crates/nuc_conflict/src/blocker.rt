ghost use Rattle.std.specs.Prelude.{◌≡◌, ◌⊎◌, Some, MatchBool, MatchOption};
ghost use Rattle.std.specs.Option.{option_copied};
ghost use Rattle.nuc_base.specs.Trees.{Alike, IsFolder, WellFormed};
ghost use Rattle.nuc_base.specs.declared.node.Node.{Node};
ghost use Rattle.nuc_conflict.specs.Remedies.{IsAstray, IsBlocker};

use nuc_base::{Node, NodeId, TreeLike};

/// Of a folder and all that is above it in Remote, what stands nearest the root among those that Local hasn't, or has
/// below another parent.
pub(crate) fn blocker<T: TreeLike>(r: &T, l: &T, from: NodeId) -> Option<NodeId>
    requires remote { WellFormed (T.nodes r.now) }
    requires folder { IsFolder (T.nodes r.now) from.0 }
    ensures { MatchOption result (Alike (T.nodes r.now) (T.nodes l.now) from.0) (λ m. (n : Node) × IsBlocker (T.nodes r.now) (T.nodes l.now) from.0 m.0 n) }
{
    let mut at = from;
    let mut highest = None;
    for _ in 0..r.len() {
        let Some(node) = r.get(at) else {
            return highest;
        };
        highest = higher(at, node, l.get(at), highest);
        at = node.place.parent;
    }
    highest
}

/// The identity, where it is astray in Local, else the one found before.
fn higher(at: NodeId, node: &Node, own: Option<&Node>, before: Option<NodeId>) -> Option<NodeId>
    ensures { (IsAstray node.now (option_copied own.entry) × (result ≡ Some at)) ⊎ (¬ (IsAstray node.now (option_copied own.entry)) × (result ≡ before)) }
{
    if is_astray(node, own) {
        Some(at)
    } else {
        before
    }
}

/// Whether Local hasn't this node of Remote, or has it below another parent.
fn is_astray(node: &Node, own: Option<&Node>) -> bool
    ensures { MatchBool result (IsAstray node.now (option_copied own.entry)) (¬ (IsAstray node.now (option_copied own.entry))) }
{
    match own {
        Some(own) => own.place.parent != node.place.parent,
        None => true,
    }
}
