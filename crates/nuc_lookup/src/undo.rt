/// How a change of where a number leads is taken back: by where it led before, if anywhere.
#[derive(Clone, Copy, Debug, PartialEq, Eq)]
pub(crate) struct Undo {
    pub(crate) from: u64,
    pub(crate) before: Option<u64>,
}
