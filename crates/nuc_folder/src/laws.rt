ghost use Rattle.nuc_folder.specs.Listing.{OneListing};

/// A folder has one listing.
pub fn has_one_listing()
    ensures { OneListing }
{}
