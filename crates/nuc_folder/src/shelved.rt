use crate::{Key, KeyPlace};
use sqlite_items::Items;
use thiserror::Error;

/// The most bytes of a file in a kept image: 64 MiB.
pub const MOST_SHELVED: u64 = 67_108_864;

/// One file or folder of a kept image.
#[derive(Debug, Drop)]
pub struct Shelved {
    pub key: Key,
    pub place: KeyPlace,
    /// What a file holds; a folder has none.
    pub bytes: Option<Items<u8>>,
    /// Whether the file may be executed; a folder never has it.
    pub bit: bool,
}

/// Why rows are no folder's, with the key of a row at fault. Where several are, any of them is given.
#[derive(Clone, Copy, Debug, PartialEq, Eq, Error)]
pub enum ShelvedFault {
    /// It is 0 or not below the next key, or another row has it too. A next key of 0 is told as key 0.
    #[error("key {} is no key of its own", .0.0)]
    BadKey(Key),
    /// Its parents don't lead to the folder itself by folders among the rows.
    #[error("key {} stands in no folder", .0.0)]
    NoParent(Key),
    /// A row of another key has its place.
    #[error("key {} stands where another does", .0.0)]
    Taken(Key),
    /// It is a file of more than `MOST_SHELVED` bytes.
    #[error("the file of key {} is too long", .0.0)]
    TooLong(Key),
    /// It is a folder with the bit.
    #[error("the folder of key {} has the bit", .0.0)]
    HasBit(Key),
    #[error("out of memory")]
    Memory,
}
