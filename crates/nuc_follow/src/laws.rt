ghost use Rattle.nuc_follow.specs.Laws.{AlteringSucceeds, CuttingSucceeds, MakingSucceeds, SplittingSucceeds};

/// What is there gets other bytes, another bit or another place: that succeeds, and the folder matches Local with it.
pub fn altering_succeeds()
    ensures { AlteringSucceeds }
{}

/// What is there goes, where nothing is in it.
pub fn cutting_succeeds()
    ensures { CuttingSucceeds }
{}

/// Something new comes, and gets a key that nobody had.
pub fn making_succeeds()
    ensures { MakingSucceeds }
{}

/// A file becomes another identity's, at another place.
pub fn splitting_succeeds()
    ensures { SplittingSucceeds }
{}
