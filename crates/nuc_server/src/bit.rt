ghost use Rattle.std.specs.Prelude.{◌≡◌, IfOk};
ghost use Rattle.nuc_journal.specs.Journal.{IsJournal};
ghost use Rattle.nuc_paths.specs.Paths.{place_in};
ghost use Rattle.nuc_server.specs.WebEdits.{BitAnswers, IsNextId};

use crate::{LoopServer, WebReply};
use nuc_base::{Counters, Kind, Name, Node, NodeId};
use nuc_paths::holder;
use std::alloc::{AllocError, Global};

/// Says whether the file of this name below a folder may be executed.
pub(crate) fn set_bit(
    server: &mut LoopServer,
    alloc: Global,
    parent: NodeId,
    name: &Name,
    on: bool,
    ids: &Counters,
) -> WebReply
    requires journal { IsJournal server.old.now }
    requires identities { IsNextId ids.now.next_id server.old.now }
    ensures answers { BitAnswers server.old.now (place_in parent.0 name.now) on result server.new.now }
    ensures identities { IsNextId ids.now.next_id server.new.now }
    ensures journal { IsJournal server.new.now }
    ensures settled { server.new.settled ≡ server.old.settled }
{
    let Some((id, node)) = holder(server.tree(), parent, name) else {
        return WebReply::NoSuch;
    };
    if node.kind == Kind::Folder {
        return WebReply::KindChanged;
    }
    if node.bit == on {
        return WebReply::Same;
    }
    match with_bit(alloc, node, on) {
        Ok(node) => server.enter(alloc, id, Some(node)),
        Err(_) => WebReply::Memory,
    }
}

fn with_bit(alloc: Global, node: &Node, on: bool) -> Result<Node, AllocError>
    ensures { IfOk result (λ changed. changed ≡ record node.now { bit = on }) }
{
    let mut node = node.copy(alloc)?;
    node.bit = on;
    Ok(node)
}
