ghost use Rattle.nuc_quiet.specs.Laws.{SyncsEndQuiet};

/// A sync that comes to its end is marked quiet, and the client's folder matches its Local then, if no call of the folder is to
/// fail and no two lists of bytes have one SHA-256.
pub fn a_sync_ends_quiet()
    ensures { SyncsEndQuiet }
{}
