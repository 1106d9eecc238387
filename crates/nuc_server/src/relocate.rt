ghost use Rattle.std.specs.Prelude.{◌≡◌, IfOk};
ghost use Rattle.std.specs.FinMap.{get};
ghost use Rattle.nuc_base.specs.Trees.{IsFolder};
ghost use Rattle.nuc_journal.specs.Entries.{tree_of};
ghost use Rattle.nuc_journal.specs.Journal.{IsJournal};
ghost use Rattle.nuc_paths.specs.Paths.{place_in};
ghost use Rattle.nuc_server.specs.WebEdits.{IsMoved, IsNextId, MoveAnswers, PutAnswers};

use crate::{LoopServer, WebReply};
use nuc_base::{Counters, Name, Node, NodeId, Path, Place, PutFault, TreeLike};
use nuc_paths::{follow, holder};
use std::alloc::{AllocError, Global};

/// Moves what has this name below a folder to the place to which a path leads.
pub(crate) fn relocate(
    server: &mut LoopServer,
    alloc: Global,
    parent: NodeId,
    name: &Name,
    to: &Path,
    ids: &Counters,
) -> WebReply
    requires journal { IsJournal server.old.now }
    requires identities { IsNextId ids.now.next_id server.old.now }
    ensures answers { MoveAnswers server.old.now (place_in parent.0 name.now) to.now.names result server.new.now }
    ensures identities { IsNextId ids.now.next_id server.new.now }
    ensures journal { IsJournal server.new.now }
    ensures settled { server.new.settled ≡ server.old.settled }
{
    let tree = server.tree();
    let Some((id, node)) = holder(tree, parent, name) else {
        return WebReply::NoSuch;
    };
    let Some((parent, name)) = follow(tree, to.names.as_slice()) else {
        return WebReply::NoParent;
    };
    match moved(alloc, node, parent, name) {
        Ok(node) => put_at(server, alloc, id, node, ids),
        Err(_) => WebReply::Memory,
    }
}

/// Gives an identity a node of the same kind at another place, below a folder.
fn put_at(
    server: &mut LoopServer,
    alloc: Global,
    id: NodeId,
    node: Node,
    ids: &Counters,
) -> WebReply
    requires journal { IsJournal server.old.now }
    requires identities { IsNextId ids.now.next_id server.old.now }
    requires parent { IsFolder (tree_of server.old.now) node.place.parent.0 }
    requires before { IsMoved (get (tree_of server.old.now) id.0) node }
    ensures answers { PutAnswers server.old.now id.0 node result server.new.now }
    ensures identities { IsNextId ids.now.next_id server.new.now }
    ensures journal { IsJournal server.new.now }
    ensures settled { server.new.settled ≡ server.old.settled }
{
    match server.tree().check_put(id, &node) {
        Ok(()) => server.enter(alloc, id, Some(node)),
        Err(PutFault::Taken(other)) => WebReply::Taken(other),
        Err(PutFault::Cycle) => WebReply::Cycle,
        Err(PutFault::KindChanged | PutFault::NoParent | PutFault::Memory) => unreachable!(),
    }
}

/// A node at the place of this name below a folder.
fn moved(alloc: Global, node: &Node, parent: NodeId, name: &Name) -> Result<Node, AllocError>
    ensures { IfOk result (λ moved. moved ≡ record node.now { place = place_in parent.0 name.now }) }
{
    let name = name.copy(alloc)?;
    Ok(node.moved_to(Place { parent, name }))
}
