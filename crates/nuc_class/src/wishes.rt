/// What an identity wishes, by its values in Remote, Local and Synced.
#[derive(Clone, Copy, Debug, PartialEq, Eq)]
pub enum Wish {
    /// Both sides have new contents of one file, and not the same: one of them has to become another file.
    Split,
    /// What Remote has comes to Local.
    Down,
    /// What Local has goes to Remote.
    Up,
    /// What Remote has deleted goes in Local too.
    CutDown,
    /// What Local has deleted goes in Remote too.
    CutUp,
    /// Both sides have deleted it: Synced forgets it.
    Forget,
    /// The three values are equal.
    Nothing,
}
