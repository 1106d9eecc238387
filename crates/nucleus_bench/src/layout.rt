ghost use Rattle.std.specs.Prelude.{◌<◌, IfOk};
ghost use Rattle.nuc_base.specs.Kinds.{FitsKind};

use nuc_base::{Kind, Name, NameFault, Node, NodeId, Place, Ver};
use std::alloc::Global;

/// How many files a folder has.
pub(crate) const FILES: u64 = 50;

/// A new folder at the root, with a name of its own for each number.
pub(crate) fn folder(alloc: Global, number: u64) -> Result<Node, NameFault>
    ensures { IfOk result FitsKind }
{
    let name = name(alloc, 'd', number)?;
    let parent = NodeId(0);
    Ok(Node {
        place: Place { parent, name },
        kind: Kind::Folder,
        ver: Ver(0),
        bit: false,
    })
}

/// A new file in a folder, with a name of its own for each number.
pub(crate) fn file(alloc: Global, parent: NodeId, number: u64, ver: Ver) -> Result<Node, NameFault>
    requires { 0 < ver.0 }
    ensures { IfOk result FitsKind }
{
    let name = name(alloc, 'f', number)?;
    Ok(Node {
        place: Place { parent, name },
        kind: Kind::File,
        ver,
        bit: false,
    })
}

fn name(alloc: Global, letter: char, number: u64) -> Result<Name, NameFault> {
    let text = format!(in alloc; "{letter}{number}").map_err(|_| NameFault::Memory)?;
    Name::new(alloc, text.as_bytes())
}
