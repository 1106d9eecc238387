use crate::KeyPlace;
use nuc_hash::Digest;

/// How a file or folder was last seen, which must still be so where it is to be removed.
#[derive(Debug, Drop)]
pub struct Seen {
    pub place: KeyPlace,
    /// The hash of the file's content; a folder has none.
    pub hash: Option<Digest>,
}
