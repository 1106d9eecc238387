ghost use Rattle.std.specs.Prelude.{◌≡◌, IfOk};
ghost use Rattle.nuc_hash.specs.Filling.{filled_bytes, filling_bytes};

use sqlite_items::Items;
use std::alloc::{AllocError, Global};

/// A content as an edit gives it. Two that stand for the same bytes differ where they are given in different forms.
#[derive(Debug, Drop)]
pub enum Filling {
    /// These bytes.
    Given(Items<u8>),
    /// So many times the same byte.
    Repeat { count: u64, byte: u8 },
}

/// The bytes of a content, lent where it has them.
#[derive(Debug, Drop)]
pub enum Filled<'a> {
    Lent(&'a [u8]),
    Made(Items<u8>),
}

impl Filled<'_> {
    pub fn as_slice(&self) -> &[u8]
        ensures { result.now ≡ filled_bytes self.now }
    {
        match self {
            Filled::Lent(bytes) => bytes,
            Filled::Made(bytes) => bytes.as_slice(),
        }
    }
}

impl Filling {
    /// The bytes that a file so filled has. Those of a repetition are made here, in as much memory.
    pub fn bytes(&self, alloc: Global) -> Result<Filled<'_>, AllocError>
        ensures { IfOk result (λ filled. filled_bytes filled ≡ filling_bytes self.now) }
    {
        match self {
            Filling::Given(bytes) => Ok(Filled::Lent(bytes.as_slice())),
            Filling::Repeat { count, byte } => {
                let bytes = vec![in alloc; *byte; *count as usize]?;
                Ok(Filled::Made(Items::from_vec(bytes)))
            }
        }
    }

    pub fn copy(&self, alloc: Global) -> Result<Filling, AllocError>
        ensures { IfOk result (λ filling. filling ≡ self.now) }
    {
        match self {
            Filling::Given(bytes) => {
                let bytes = Items::from_slice(alloc, bytes.as_slice())?;
                Ok(Filling::Given(bytes))
            }
            Filling::Repeat { count, byte } => Ok(Filling::Repeat {
                count: *count,
                byte: *byte,
            }),
        }
    }
}
