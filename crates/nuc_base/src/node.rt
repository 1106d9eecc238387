ghost use Rattle.std.specs.Prelude.{◌≡◌, IfOk};

use crate::{Name, NameRoom};
use std::alloc::{AllocError, Global};

/// The identity of a file or folder, which it keeps wherever it moves. The root of every tree is 0, and has no node.
#[derive(Clone, Copy, Debug, PartialEq, Eq, PartialOrd, Ord, Hash)]
pub struct NodeId(pub u64);

/// A version of a file's content. Every content that is recorded has its own, from 1; a folder has 0.
#[derive(Clone, Copy, Debug, PartialEq, Eq, PartialOrd, Ord, Hash)]
pub struct Ver(pub u64);

/// What stands at an identity. It never changes.
#[derive(Clone, Copy, Debug, PartialEq, Eq, Hash)]
pub enum Kind {
    Folder,
    File,
}

/// Where a node stands: its parent, and its name among the parent's children.
#[derive(Debug, Drop)]
pub struct Place {
    pub parent: NodeId,
    pub name: Name,
}

impl Place {
    /// The same place, with a name in memory of its own.
    pub fn copy(&self, alloc: Global) -> Result<Place, AllocError>
        ensures { IfOk result (λ p. p ≡ self.now) }
    {
        let name = self.name.copy(alloc)?;
        Ok(Place {
            parent: self.parent,
            name,
        })
    }
}

/// A file or folder of a tree.
#[derive(Debug, Drop)]
pub struct Node {
    pub place: Place,
    pub kind: Kind,
    pub ver: Ver,
    /// Whether a file may be executed; a folder never has it.
    pub bit: bool,
}

impl Node {
    /// The same node, with a name in memory of its own.
    pub fn copy(&self, alloc: Global) -> Result<Node, AllocError>
        ensures { IfOk result (λ n. n ≡ self.now) }
    {
        let place = self.place.copy(alloc)?;
        Ok(self.moved_to(place))
    }

    /// The same node, with its name in room that was made before.
    pub fn copy_in(&self, room: NameRoom) -> Node
        ensures { result ≡ self.now }
    {
        self.moved_to(Place {
            parent: self.place.parent,
            name: self.place.name.copy_in(room),
        })
    }

    /// This node at another place.
    pub fn moved_to(&self, place: Place) -> Node
        ensures { result ≡ record self.now { place = place } }
    {
        Node {
            place,
            kind: self.kind,
            ver: self.ver,
            bit: self.bit,
        }
    }
}

/// The next identity and the next version that nobody has had yet.
#[derive(Clone, Copy, Debug, PartialEq, Eq)]
pub struct Counters {
    pub next_id: u64,
    pub next_ver: u64,
}
