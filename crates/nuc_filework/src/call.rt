use nuc_folder::{Key, KeyPlace, Seen};
use nuc_hash::Digest;

/// One call on a folder. The bytes of a file, where it writes some, stand beside it.
#[derive(Debug, Drop)]
pub enum Call {
    MakeDir(KeyPlace),
    /// With the bit of the new file.
    WriteNew(KeyPlace, bool),
    /// With the hash that the old bytes are to have.
    Replace(Key, Digest),
    /// With the bit that is expected, and the new one.
    SetBit(Key, bool, bool),
    /// From the place that is expected to the new one.
    MoveTo(Key, KeyPlace, KeyPlace),
    Remove(Key, Seen),
}
