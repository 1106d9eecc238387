ghost use Rattle.std.specs.Prelude.{◌≡◌, []};
ghost use Rattle.nuc_replica.specs.Local.{IsEarlier, IsLocal, earlier_of};

use nuc_base::TreeLike;
use nuc_observe::Keys;
use nuc_undo::UndoTree;
use std::marker::Model;

/// A tree with its keys, both settled, that others took the place of.
#[derive(Drop)]
pub(crate) struct Earlier<T: TreeLike> {
    tree: UndoTree<T>,
    keys: Keys,
}

impl<T: TreeLike> Model for Earlier<T> {
    ghost use Rattle.nuc_replica.specs.Local.{EarlierState, IsEarlier, earlier_code, earlier_of};

    ghost Value = { EarlierState };

    ghost coded = { earlier_code };

    ghost view = { λ e. earlier_of e.tree e.keys };

    ghost invariant = { λ e. IsEarlier e.tree e.keys };
}

impl<T: TreeLike> Earlier<T> {
    pub(crate) fn of(tree: UndoTree<T>, keys: Keys) -> Earlier<T>
        requires { IsEarlier tree keys }
        ensures { result ≡ earlier_of tree keys }
    {
        Earlier { tree, keys }
    }

    /// What it was made of.
    pub(crate) fn parts(self) -> (UndoTree<T>, Keys)
        ensures parts { earlier_of result.0 result.1 ≡ self }
        ensures settled { IsEarlier result.0 result.1 }
    {
        (self.tree, self.keys)
    }
}
