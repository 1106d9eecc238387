/// A number, and the one that it leads to.
#[derive(Clone, Copy, Debug, PartialEq, Eq)]
pub struct Row {
    pub from: u64,
    pub to: u64,
}
