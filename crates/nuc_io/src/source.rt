ghost use Rattle.std.specs.Prelude.{◌≡◌, ◌<◌, ℕ, List, Option, length};
ghost use Rattle.nuc_io.specs.Causes.{HasCause};
ghost use Rattle.nuc_io.specs.Reading.{Reads};

/// How a read is answered.
#[derive(Clone, Copy, Debug, PartialEq, Eq)]
pub enum Got {
    /// So many bytes stand at the front of the buffer, at least one.
    Some(u64),
    /// No byte is left.
    End,
    /// Nothing was read, and the count of faults rose.
    Failed,
}

/// Where bytes come from. It counts its faults from 0; a count at the last value of `u64` counts as risen.
pub trait Source {
    /// The bytes that are left, where it tells them.
    ghost left: { Self → Option (List ℕ) };

    /// It has answered its end.
    ghost ended: { Self → Type 0 };

    /// How often it has failed.
    ghost faults: { Self → ℕ };

    /// Reads the next bytes, as many as it likes, into the front of the buffer.
    fn read(&mut self, buf: &mut [u8]) -> Got
        requires { 0 < length buf.old }
        ensures bytes { Reads (left self.old) result buf.new (left self.new) }
        ensures end { result ≡ Got.End → ended self.new }
        ensures stays_ended { ended self.old → ended self.new }
        ensures cause { HasCause (faults self.old) (faults self.new) (result ≡ Got.Failed) };
}
