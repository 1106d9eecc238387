use nuc_base::{NameFault, PutFault};
use nuc_blocks::{AssembleFault, StoreFault};
use nuc_edits::AdoptFault;
use nuc_observe::ObserveFault;
use std::alloc::AllocError;
use std::io;
use thiserror::Error;

/// Why there is no answer.
#[derive(Debug, Drop, Error)]
pub(crate) enum Fault {
    #[error("usage: nucleus_bench hash SIZE PIECE | nucleus_bench sha2 SIZE PIECE, in bytes | nucleus_bench many FILES SIZE | nucleus_bench store|journal|edits|tree|commits COUNT | nucleus_bench listing COUNT none|same|changed | nucleus_bench plan COUNT DIFFERING TIMES | nucleus_bench ask plain|index put|at|child|under|cut|shuffle COUNT")]
    Usage,
    #[error("a count is a number from 1 to 4000000")]
    Count,
    #[error("out of memory")]
    Memory(#[from(alloc)] AllocError),
    #[error("the words can't be read: {0}")]
    Words(#[from] io::Error),
    #[error("a block isn't stored: {0}")]
    Store(#[from] StoreFault),
    #[error("the blocks aren't put together: {0}")]
    Assemble(#[from] AssembleFault),
    #[error("a version isn't adopted: {0}")]
    Adopt(#[from] AdoptFault),
    #[error("a name can't be made: {0}")]
    Name(#[from] NameFault),
    #[error("a node isn't put: {0}")]
    Put(#[from] PutFault),
    #[error("a listing isn't observed: {0}")]
    Observe(#[from] ObserveFault),
    #[error("what was observed can't be taken over")]
    Untaken,
    #[error("a commit is refused")]
    Refused,
}
