use crate::Item;
use sqlite_items::Items;

/// How a folder answers that it is to be listed.
#[derive(Debug, Drop)]
pub enum Listed {
    /// An item for each file and folder, at most `MOST_ITEMS`. Parents stand before what is in them, depth first, and
    /// what is in one folder stands in the order of the names' bytes.
    Items(Items<Item>),
    /// The folder failed.
    Failed,
    /// There are so many files and folders, more than `MOST_ITEMS`.
    TooLong(u64),
    Memory,
}

/// The most items of a listing.
pub const MOST_ITEMS: u64 = 1_000_000;
