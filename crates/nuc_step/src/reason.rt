use nuc_folder::Outcome;
use nuc_server::Refusal;

/// Why the outside change of an operation wasn't made.
#[derive(Clone, Copy, Debug, PartialEq, Eq)]
pub enum Reason {
    /// How the folder answered. A folder that answers Ok or Made has made the change, and one that answers Memory hasn't
    /// been asked, so none of these is ever a reason.
    Folder(Outcome),
    /// Why the server refused the commit.
    Server(Refusal),
}
