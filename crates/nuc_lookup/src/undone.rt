/// A change of where a number leads that was taken back.
#[derive(Clone, Copy, Debug, PartialEq, Eq)]
pub struct Undone {
    pub from: u64,
    /// Where the change had led it, if anywhere.
    pub after: Option<u64>,
    /// Where it led before the change, and leads again, if anywhere.
    pub before: Option<u64>,
}
