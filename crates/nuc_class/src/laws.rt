ghost use Rattle.nuc_class.specs.Laws.{DownKeepsEdits, NothingWhereEqual, OneWish, OperationsFit, SomeWish, WishHasOperation};

/// No identity has two wishes.
pub fn each_has_one_wish()
    ensures { OneWish }
{}

/// In well formed trees each identity has a wish.
pub fn each_has_a_wish()
    ensures { SomeWish }
{}

/// The wish is `Nothing` exactly where the three values are equal.
pub fn nothing_is_wished_where_equal()
    ensures { NothingWhereEqual }
{}

/// Each wish but `Split` and `Nothing` has an operation.
pub fn a_wish_has_its_operation()
    ensures { WishHasOperation }
{}

/// What an operation puts fits its kind.
pub fn operations_fit()
    ensures { OperationsFit }
{}

/// A Down loses no edit of a file's user: where it gives Local another version, the old one was Synced's, or has the
/// same content and is adopted.
pub fn a_down_keeps_edits()
    ensures { DownKeepsEdits }
{}
