use nuc_folder::Outcome;
use nuc_server::Refusal;

/// What the outside change of an operation came to.
#[derive(Clone, Copy, Debug, PartialEq, Eq)]
pub enum Taken {
    /// How the folder answered; never by want of memory.
    Folder(Outcome),
    /// The server accepted the commit as this revision.
    Accepted(u64),
    /// The server refused the commit.
    Refused(Refusal),
}
