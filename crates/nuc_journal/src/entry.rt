ghost use Rattle.std.specs.Prelude.{◌≡◌, IfOk};

use nuc_base::{Node, NodeId};
use std::alloc::{AllocError, Global};

/// One entry of the journal.
#[derive(Debug, Drop)]
pub struct Entry {
    /// Its revision. Revisions count from 1, without gaps.
    pub rev: u64,
    pub id: NodeId,
    /// What stands at the identity from this revision on. None says that its node went.
    pub value: Option<Node>,
    /// The number of the client that committed it; the web has 0.
    pub by: u32,
}

impl Entry {
    /// The same entry, with a name in memory of its own.
    pub fn copy(&self, alloc: Global) -> Result<Entry, AllocError>
        ensures { IfOk result (λ entry. entry ≡ self.now) }
    {
        let value = copy_value(alloc, &self.value)?;
        Ok(Entry {
            rev: self.rev,
            id: self.id,
            value,
            by: self.by,
        })
    }
}

fn copy_value(alloc: Global, value: &Option<Node>) -> Result<Option<Node>, AllocError>
    ensures { IfOk result (λ copied. copied ≡ value.now) }
{
    match value {
        Some(node) => Ok(Some(node.copy(alloc)?)),
        None => Ok(None),
    }
}
