ghost use Rattle.std.specs.Prelude.{◌≡◌, ℕ, Bool};

use crate::Ver;

/// Whether contents have equal hashes: what is asked where no content is at hand.
pub trait Hashes {
    ghost same: { Self → ℕ → ℕ → Bool };

    /// Whether the contents of two versions have equal hashes.
    fn same(&self, a: Ver, b: Ver) -> bool
        ensures { result ≡ same self.now a.0 b.0 };
}
