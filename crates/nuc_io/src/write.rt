ghost use Rattle.std.specs.Prelude.{IsErr};
ghost use Rattle.nuc_io.specs.Causes.{HasCause};
ghost use Rattle.nuc_io.specs.Writing.{WritesAll};

use crate::{Sink, Wrote};

/// A sink failed.
#[derive(Clone, Copy, Debug, PartialEq, Eq)]
pub struct WriteFault;

/// Writes all of the bytes, in as many pieces as the sink takes. After a fault the first of them may have gone out.
pub fn write_all<K: Sink>(sink: &mut K, bytes: &[u8]) -> Result<(), WriteFault>
    ensures bytes { WritesAll (K.held sink.old) result bytes.now (K.held sink.new) }
    ensures cause { HasCause (K.faults sink.old) (K.faults sink.new) (IsErr result) }
{
    let mut rest = bytes;
    while !rest.is_empty() {
        match sink.write(rest) {
            Wrote::Some(count) => {
                let (_, more) = rest.split_at(count as usize);
                rest = more;
            }
            Wrote::Failed => return Err(WriteFault),
        }
    }
    Ok(())
}
