use thiserror::Error;

/// Why bytes are no name. Where several reasons hold, the first one here is given.
#[derive(Clone, Copy, Debug, PartialEq, Eq, Error)]
pub enum NameFault {
    #[error("a name has at least one byte")]
    Empty,
    /// With the number of bytes.
    #[error("a name has at most 255 bytes, and this has {0}")]
    TooLong(usize),
    /// With the place, from 0, of the first byte that is NUL, `/`, or no part of a whole UTF-8 character.
    #[error("byte {0} can't stand in a name")]
    BadByte(usize),
    #[error("`.` and `..` are no names")]
    Dots,
    #[error("out of memory")]
    Memory,
}
