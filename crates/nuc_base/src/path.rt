ghost use Rattle.std.specs.Prelude.{◌≡◌, IfOk};

use crate::Name;
use sqlite_items::Items;
use std::alloc::{AllocError, Global};

/// The names that lead from the root to a place, one or more.
#[derive(Debug, Drop)]
pub struct Path {
    pub names: Items<Name>,
}

impl Path {
    /// The same path, with its names in memory of their own.
    pub fn copy(&self, alloc: Global) -> Result<Path, AllocError>
        ensures { IfOk result (λ path. path ≡ self.now) }
    {
        let mut names = Items::new(alloc);
        for name in self.names.as_slice() {
            names.push(name.copy(alloc)?)?;
        }
        Ok(Path { names })
    }
}
