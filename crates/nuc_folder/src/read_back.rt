use sqlite_items::Items;

/// What a folder gives where a file is read.
#[derive(Debug, Drop)]
pub enum ReadBack {
    /// The file's bytes.
    Bytes(Items<u8>),
    /// The key isn't that of a file that is there.
    Changed,
    /// The folder failed.
    Failed,
    Memory,
}
