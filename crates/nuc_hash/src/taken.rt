ghost use Rattle.std.specs.Prelude.{◌≡◌, List, ℕ, [], ◌++◌};
ghost use Rattle.std.specs.Borrow.{ftrue};

use std::marker::Model;

/// The bytes that a hasher was given. Only contracts see them: nothing is kept and nothing is done at run time.
#[derive(Drop)]
pub(crate) struct Taken {
    pub ghost bytes: { List ℕ },
}

impl Model for Taken {
    ghost also_owns = { λ _. ftrue };
}

impl Taken {
    pub(crate) fn new() -> Taken
        ensures { result.bytes ≡ [] }
    {
        Taken {}
    }

    pub(crate) fn note(&mut self, _bytes: &[u8])
        ensures { self.new.bytes ≡ self.old.bytes ++ _bytes.now }
    {}
}
