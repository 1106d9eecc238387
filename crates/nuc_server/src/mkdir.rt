ghost use Rattle.std.specs.Prelude.{◌≡◌, IfOk};
ghost use Rattle.nuc_base.specs.Trees.{IsFolder};
ghost use Rattle.nuc_journal.specs.Entries.{tree_of};
ghost use Rattle.nuc_journal.specs.Journal.{IsJournal};
ghost use Rattle.nuc_paths.specs.Paths.{place_in};
ghost use Rattle.nuc_server.specs.WebEdits.{IsNextId, MkdirAnswers, folder_at};

use crate::{LoopServer, WebReply};
use nuc_base::{Counters, Kind, Name, Node, NodeId, Place, Ver};
use nuc_paths::holder;
use std::alloc::{AllocError, Global};

/// Makes a folder of this name below a folder.
pub(crate) fn mkdir(
    server: &mut LoopServer,
    alloc: Global,
    parent: NodeId,
    name: &Name,
    ids: &mut Counters,
) -> WebReply
    requires folder { IsFolder (tree_of server.old.now) parent.0 }
    requires journal { IsJournal server.old.now }
    requires identities { IsNextId ids.old.next_id server.old.now }
    ensures answers { MkdirAnswers server.old.now ids.old (place_in parent.0 name.now) result server.new.now ids.new }
    ensures versions { ids.new.next_ver ≡ ids.old.next_ver }
    ensures identities { IsNextId ids.new.next_id server.new.now }
    ensures journal { IsJournal server.new.now }
    ensures settled { server.new.settled ≡ server.old.settled }
{
    if let Some((other, _)) = holder(server.tree(), parent, name) {
        return WebReply::Taken(other);
    }
    let Some(next_id) = ids.next_id.checked_add(1) else {
        return WebReply::Memory;
    };
    let Ok(folder) = new_folder(alloc, parent, name) else {
        return WebReply::Memory;
    };
    let reply = server.enter(alloc, NodeId(ids.next_id), Some(folder));
    if let WebReply::Accepted(_) = reply {
        ids.next_id = next_id;
    }
    reply
}

fn new_folder(alloc: Global, parent: NodeId, name: &Name) -> Result<Node, AllocError>
    ensures { IfOk result (λ node. node ≡ folder_at (place_in parent.0 name.now)) }
{
    let name = name.copy(alloc)?;
    Ok(Node {
        place: Place { parent, name },
        kind: Kind::Folder,
        ver: Ver(0),
        bit: false,
    })
}
