ghost use Rattle.std.specs.Prelude.{◌≡◌, ◌<◌, ℕ, List, Option, length};
ghost use Rattle.nuc_io.specs.Causes.{HasCause};
ghost use Rattle.nuc_io.specs.Writing.{Writes};

/// How a write is answered.
#[derive(Clone, Copy, Debug, PartialEq, Eq)]
pub enum Wrote {
    /// So many bytes of the piece were taken, at least one.
    Some(u64),
    /// None was taken, and the count of faults rose.
    Failed,
}

/// Where bytes go. It counts its faults from 0; a count at the last value of `u64` counts as risen.
pub trait Sink {
    /// The bytes that were written, where it tells them.
    ghost held: { Self → Option (List ℕ) };

    /// How often it has failed.
    ghost faults: { Self → ℕ };

    /// Takes the first bytes of a piece, as many as it likes.
    fn write(&mut self, bytes: &[u8]) -> Wrote
        requires { 0 < length bytes.now }
        ensures bytes { Writes (held self.old) result bytes.now (held self.new) }
        ensures cause { HasCause (faults self.old) (faults self.new) (result ≡ Wrote.Failed) };
}
