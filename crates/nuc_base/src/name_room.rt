ghost use Rattle.std.specs.Prelude.{◌≡◌, ◌≤◌, length};

use crate::name::MAX_LEN;
use std::alloc::{AllocError, Global};
use std::marker::Model;

/// Room for one name of any length, made before it is known which. A copy that is put into it takes no memory.
#[derive(Debug, Drop)]
pub struct NameRoom {
    bytes: Vec<u8>,
}

impl Model for NameRoom {
    ghost use Rattle.std.specs.Prelude.{◌≡◌, ◌≤◌, vec_capacity, []};

    ghost Value = { Unit {0} };

    ghost view = { λ _. tt };

    ghost invariant = { λ r. (r.bytes.items ≡ []) × (255 ≤ vec_capacity r.bytes) };
}

impl NameRoom {
    /// Takes the memory.
    pub fn new(alloc: Global) -> Result<NameRoom, AllocError> {
        let bytes = Vec::with_capacity(alloc, MAX_LEN)?;
        Ok(NameRoom { bytes })
    }

    /// These bytes, in this room.
    pub(crate) fn filled(self, bytes: &[u8]) -> Vec<u8>
        requires { length bytes.now ≤ 255 }
        ensures { result.items ≡ bytes.now }
    {
        let mut room = self.bytes;
        match room.extend_from_slice(bytes) {
            Ok(()) => room,
            Err(_) => room,
        }
    }
}
