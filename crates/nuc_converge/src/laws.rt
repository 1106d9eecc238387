ghost use Rattle.nuc_converge.specs.Laws.{BatchesEndAlike, EachLowersIt, EachPlanGivesSome, EachPlanIsExact, FewArePlanned, FewUnlessCollision, NoneIsRefused};

/// A plan is empty exactly where nothing of its client is in flight and the three trees are equal.
pub fn each_plan_is_exact()
    ensures { EachPlanIsExact }
{}

/// Each plan of a client that is left alone gives at least one operation, but for the empty one.
pub fn each_plan_gives_some()
    ensures { EachPlanGivesSome }
{}

/// While a client is left alone, the potential of its trees and the operations applied so far are at most the potential at the
/// beginning.
pub fn each_operation_counts()
    ensures { EachLowersIt }
{}

/// It plans at most 6 operations for each identity that differed at the beginning, beside those that were dropped.
pub fn few_are_planned()
    ensures { FewArePlanned }
{}

/// The server refuses none of its commits, unless two lists of bytes have one SHA-256.
pub fn none_is_refused()
    ensures { NoneIsRefused }
{}

/// So it plans at most 6 for each identity that differed, unless there are two such lists.
pub fn few_unless_collision()
    ensures { FewUnlessCollision }
{}

/// Whatever the order in which the operations of a batch begin, are taken and end, the same three trees come of it, unless there
/// are two such lists.
pub fn batches_end_alike()
    ensures { BatchesEndAlike }
{}
