ghost use Rattle.nuc_measure.specs.Laws.{EndsLower, EntriesKeep, FlightsCount, MendsLower, OneCarried, OneCount, OnePotential, PlansLower};

/// Three trees have one count of identities that differ, and it is 0 exactly where the trees are equal.
pub fn one_count()
    ensures { OneCount }
{}

/// Three trees have one potential. It is 0 exactly where they are equal, and at most 6 for each identity that differs.
pub fn one_potential()
    ensures { OnePotential }
{}

/// With what is in flight they carry one number, no less than the potential, and the potential itself where nothing is.
pub fn one_carried()
    ensures { OneCarried }
{}

/// The end of each Down, CutDown, Forget, Up and CutUp lowers what is carried.
pub fn an_end_lowers()
    ensures { EndsLower }
{}

/// The entry of a commit doesn't raise it, also where it comes before the commit's own end.
pub fn an_entry_keeps()
    ensures { EntriesKeep }
{}

/// Each mend lowers it: a split, an eviction, an adoption, a revival and a move back.
pub fn a_mend_lowers()
    ensures { MendsLower }
{}

/// As many operations as are in flight, at different identities, are carried at least.
pub fn flights_count()
    ensures { FlightsCount }
{}

/// Each operation of a plan, carried out alone, lowers the potential.
pub fn a_plan_lowers_the_potential()
    ensures { PlansLower }
{}
