ghost use Rattle.nuc_undo.specs.Laws.{BackLeadsBack};

/// After some changes of a settled tree, `back` leads to the tree before them, with the same nodes laid by and no less
/// spare. So the changes can be made again, and want no memory where they wanted none.
pub fn back_leads_back()
    ensures { BackLeadsBack }
{}
