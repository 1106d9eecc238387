ghost use Rattle.nuc_safety.specs.Laws.{BatchInEveryOrder, DueIsPossible, FirstFitIsBatch, FirstFitIsPart, FirstFitSettlesEach, FirstIsTaken, OneFirstFit, StaysPossible, TogetherEitherWay};

/// Whether two operations are together doesn't depend on which is named first.
pub fn together_either_way()
    ensures { TogetherEitherWay }
{}

/// What could be carried out still can be after an operation that it is together with.
pub fn together_stays_possible()
    ensures { StaysPossible }
{}

/// What is due can be carried out.
pub fn what_is_due_is_possible()
    ensures { DueIsPossible }
{}

/// A list has one first fit.
pub fn one_first_fit()
    ensures { OneFirstFit }
{}

/// A first fit of operations that can be carried out is a batch.
pub fn a_first_fit_is_a_batch()
    ensures { FirstFitIsBatch }
{}

/// A batch can be carried out in every order, and all orders make the same three trees.
pub fn a_batch_in_every_order()
    ensures { BatchInEveryOrder }
{}

/// A first fit is a part of the list, in its order, and has at most 32 operations.
pub fn a_first_fit_is_a_part()
    ensures { FirstFitIsPart }
{}

/// An operation stays out of a first fit only where the batch was full, or one taken before isn't together with it.
pub fn each_is_settled()
    ensures { FirstFitSettlesEach }
{}

/// The first operation of a list is always taken.
pub fn the_first_is_taken()
    ensures { FirstIsTaken }
{}
