use nuc_base::Ver;
use thiserror::Error;

/// Why a version isn't adopted.
#[derive(Clone, Copy, Debug, PartialEq, Eq, Error)]
pub enum AdoptFault {
    /// With the two versions, as they were given.
    #[error("the contents of the versions have other hashes")]
    HashesDiffer(Ver, Ver),
    #[error("out of memory")]
    Memory,
}
