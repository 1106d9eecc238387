ghost use Rattle.nuc_observe.specs.Laws.{IdentitiesDiffer, NodesComeInTurn, NodesHaveKeys, ScanMakesLocal};

/// No two items of a good listing get one identity, where the next identity is above those of Local.
pub fn identities_differ()
    ensures { IdentitiesDiffer }
{}

/// The nodes of a good listing have just the identities that its bindings have.
pub fn nodes_have_keys()
    ensures { NodesHaveKeys }
{}

/// The nodes of a good listing can be put into an empty tree one after the other, in the order of the listing.
pub fn nodes_come_in_turn()
    ensures { NodesComeInTurn }
{}

/// What a scan gives is a well formed tree, whose identities are those that have a key.
pub fn scan_makes_local()
    ensures { ScanMakesLocal }
{}
