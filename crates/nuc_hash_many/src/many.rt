ghost use Rattle.std.specs.Prelude.{◌≡◌, map, IfOk};
ghost use Rattle.nuc_hash.specs.Content as hash;

use nuc_hash::{Content, content_of};
use rayon::prelude::*;
use std::alloc::{AllocError, Global};
use std::thread::Threads;

/// The content of each of the files, in their order. They are hashed by as many threads as there are processors, each
/// file by one of them, and no byte is copied.
pub fn content_of_many(
    rt: &(impl Threads + Sync),
    alloc: Global,
    files: &[Vec<u8>],
) -> Result<Vec<Content>, AllocError>
    ensures { IfOk result (λ contents. contents.items ≡ map (λ file. hash.content_of file.items) files.now) }
{
    files
        .par_iter()
        // Without this a list of fewer than two thousand files would be hashed by one thread.
        .with_min_len(1)
        .map(
            |file: &Vec<u8>| -> Result<Content, AllocError>
                ensures { IfOk result (λ content. content ≡ hash.content_of file.now.items) }
            { content_of(alloc, file) },
        )
        .collect::<Result<Vec<Content>, AllocError>>(rt, alloc)?
}
