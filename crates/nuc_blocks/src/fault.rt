use nuc_hash::Digest;
use thiserror::Error;

/// Why bytes aren't stored. Where several reasons hold, the first one here is given.
#[derive(Clone, Copy, Debug, PartialEq, Eq, Error)]
pub enum StoreFault {
    /// With the digest that the bytes have.
    #[error("the bytes have another SHA-256")]
    Wrong(Digest),
    /// With the number of bytes, which is above `nuc_hash::BLOCK`.
    #[error("{0} bytes are too many for a block")]
    TooLong(u64),
    #[error("out of memory")]
    Memory,
}

/// Why blocks can't be put together.
#[derive(Clone, Copy, Debug, PartialEq, Eq, Error)]
pub enum AssembleFault {
    /// With the first digest that no block stands under.
    #[error("a block isn't kept")]
    NoBlock(Digest),
    #[error("out of memory")]
    Memory,
}
