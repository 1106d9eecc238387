ghost use Rattle.std.specs.Prelude.{◌≡◌, IfOk};

use crate::Key;
use nuc_base::Name;
use std::alloc::{AllocError, Global};

/// Where something stands in a folder: the key of what it stands in, and its name there.
#[derive(Debug, Drop)]
pub struct KeyPlace {
    pub parent: Key,
    pub name: Name,
}

impl KeyPlace {
    /// The same place, with a name in memory of its own.
    pub fn copy(&self, alloc: Global) -> Result<KeyPlace, AllocError>
        ensures { IfOk result (λ place. place ≡ self.now) }
    {
        let name = self.name.copy(alloc)?;
        Ok(KeyPlace {
            parent: self.parent,
            name,
        })
    }
}
