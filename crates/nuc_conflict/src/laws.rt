ghost use Rattle.nuc_conflict.specs.Laws.{MendOrEqual, MendOrNone, MendsHaveFacts, MendsKeepForm, OneMend};

/// Where some identity has a wish and no operation is due, a mend applies: no rule applies only where Remote, Local and
/// Synced are equal.
pub fn a_mend_or_equal_trees()
    ensures { MendOrEqual }
{}

/// Three trees have at most one mend.
pub fn one_mend()
    ensures { OneMend }
{}

/// They have none where no rule applies.
pub fn no_mend_without_a_rule()
    ensures { MendOrNone }
{}

/// What a mend rests on: who is in whose way, that what is free is free, that what is new is new, and that its changes
/// are legal. An identity has one kind in all trees, and is below `next`.
pub fn mends_are_legal()
    ensures { MendsHaveFacts }
{}

/// After a mend the three trees fit together again: each is well formed, and an identity has one kind in all of them. The
/// next identity is one higher at most.
pub fn mends_keep_form()
    ensures { MendsKeepForm }
{}
