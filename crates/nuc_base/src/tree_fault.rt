use crate::NodeId;
use thiserror::Error;

/// Why an identity can't get a node. Where several reasons hold, the first one here is given.
#[derive(Clone, Copy, Debug, PartialEq, Eq, Error)]
pub enum PutFault {
    #[error("a file can't become a folder, nor a folder a file")]
    KindChanged,
    #[error("the parent isn't a folder of the tree")]
    NoParent,
    /// With the identity that has the place.
    #[error("another node has the place")]
    Taken(NodeId),
    #[error("a folder can't stand below itself")]
    Cycle,
    #[error("out of memory")]
    Memory,
}

/// Why a node can't be cut. Where both reasons hold, the first one here is given.
#[derive(Clone, Copy, Debug, PartialEq, Eq, Error)]
pub enum CutFault {
    #[error("nothing stands at the identity")]
    Absent,
    #[error("the folder has children")]
    NotEmpty,
}
