ghost use Rattle.std.specs.Prelude.{◌≡◌};
ghost use Rattle.nuc_folder.specs.Outcome.{is_success};

use crate::Key;

/// How a folder answers a call that is to change it.
#[derive(Clone, Copy, Debug, PartialEq, Eq)]
pub enum Outcome {
    /// It was done.
    Ok,
    /// It was done, and what was made has this key.
    Made(Key),
    /// The key isn't there, isn't of the kind that is needed, isn't at the place where it was expected, or hasn't the
    /// hash or the bit that was expected.
    Changed,
    /// The new place is another's.
    Taken,
    /// The key that was to go has children.
    NotEmpty,
    /// The folder failed.
    Failed,
    Memory,
}

impl Outcome {
    /// Whether the call did what it was asked for.
    pub fn is_success(self) -> bool
        ensures { result ≡ is_success self }
    {
        matches!(self, Outcome::Ok | Outcome::Made(_))
    }
}
