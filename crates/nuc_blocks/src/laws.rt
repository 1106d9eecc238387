ghost use Rattle.nuc_blocks.specs.Laws.{AssemblesContents, EachHasItsDigest, KeptStands, OthersStand, StoredStands};

/// Bytes that are stored where nothing stood stand there.
pub fn stored_stands()
    ensures { StoredStands }
{}

/// No block that stood is replaced.
pub fn kept_stands()
    ensures { KeptStands }
{}

/// At every other digest a store changes nothing.
pub fn others_stand()
    ensures { OthersStand }
{}

/// A block has the digest by which it is asked for.
pub fn each_has_its_digest()
    ensures { EachHasItsDigest }
{}

/// The blocks of a content give its bytes, as far as their digests tell: bytes of the same blocks, and so of the same hash.
pub fn assembles_contents()
    ensures { AssemblesContents }
{}
