use crate::Outcome;

/// What came of the folder's calls of one operation.
#[derive(Clone, Copy, Debug, PartialEq, Eq)]
pub struct RanOp {
    /// The answer of the first call that didn't do what it was asked for, else of the last, and `Ok` where none is made.
    pub outcome: Outcome,
    /// How many calls did what they were asked for.
    pub made: u32,
}
