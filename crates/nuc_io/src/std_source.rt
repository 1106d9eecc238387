ghost use Rattle.std.specs.Prelude.{◌≡◌, false, Option, List, ℕ};

use crate::{Got, Source};
use std::io::Read;

/// A source over any reader. It doesn't tell what is left, and each error of the reader is a fault.
#[derive(Drop)]
pub struct StdSource<R> {
    reader: R,
    /// The reader has answered that no byte is left.
    ended: bool,
    faults: u64,
}

impl<R: Read> StdSource<R> {
    pub fn new(reader: R) -> StdSource<R>
        ensures open { ¬ (⟦<StdSource<R> as Source>⟧.ended result) }
        ensures faults { ⟦<StdSource<R> as Source>⟧.faults result ≡ 0 }
    {
        StdSource {
            reader,
            ended: false,
            faults: 0,
        }
    }
}

impl<R: Read> Source for StdSource<R> {
    ghost use Rattle.std.specs.Prelude.{None, IsTrue};

    ghost left = { λ s. None };

    ghost ended = { λ s. IsTrue s.ended };

    ghost faults = { λ s. s.faults };

    fn read(&mut self, buf: &mut [u8]) -> Got {
        match self.reader.read(buf) {
            Ok(0) => {
                self.ended = true;
                Got::End
            }
            Ok(count) => Got::Some(count as u64),
            Err(_) => {
                self.faults = self.faults.saturating_add(1);
                Got::Failed
            }
        }
    }
}
