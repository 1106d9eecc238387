ghost use Rattle.std.specs.Prelude.{◌≡◌, Option, List, ℕ};

use crate::{Sink, Wrote};
use std::io::Write;

/// A sink over any writer. It doesn't tell what was written. Each error of the writer is a fault, and so is a write that
/// takes no byte.
#[derive(Drop)]
pub struct StdSink<W> {
    writer: W,
    faults: u64,
}

impl<W: Write> StdSink<W> {
    pub fn new(writer: W) -> StdSink<W>
        ensures { ⟦<StdSink<W> as Sink>⟧.faults result ≡ 0 }
    {
        StdSink { writer, faults: 0 }
    }
}

impl<W: Write> Sink for StdSink<W> {
    ghost use Rattle.std.specs.Prelude.{None};

    ghost held = { λ s. None };

    ghost faults = { λ s. s.faults };

    fn write(&mut self, bytes: &[u8]) -> Wrote {
        match self.writer.write(bytes) {
            Ok(count) if count > 0 => Wrote::Some(count as u64),
            _ => {
                self.faults = self.faults.saturating_add(1);
                Wrote::Failed
            }
        }
    }
}
