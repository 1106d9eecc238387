/// What a client counts.
#[derive(Clone, Copy, Debug, PartialEq, Eq)]
pub(crate) struct Counts {
    /// How often Local has changed.
    pub(crate) changes: u64,
    /// The number of the next operation.
    pub(crate) next_op: u64,
}
