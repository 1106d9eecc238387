ghost use Rattle.std.specs.Prelude.{◌≡◌, ◌≢◌, ◌++◌, [], ◌∷◌, List, None, Some, ℕ, OnOk, MatchBool, MatchOption, IfOk};
ghost use Rattle.nuc_folder.specs.declared.item.Item.{Item};
ghost use Rattle.nuc_observe.specs.Listing.{IsListedFolder, IsPlacedApart, kind_of, listed_kind};
ghost use Rattle.nuc_observe.specs.Seen.{HasSeen, place_of};

use crate::item_place::ItemPlace;
use nuc_base::Kind;
use nuc_folder::{Item, Key};
use std::alloc::{AllocError, Global};
use std::collections::{BTreeMap, BTreeSet};

/// What the items so far were: the kind of each key, and the places.
#[derive(Drop)]
pub(crate) struct Seen {
    kinds: BTreeMap<u64, Kind>,
    places: BTreeSet<ItemPlace>,
}

impl Seen {
    /// Of no items, in no memory.
    pub(crate) fn new(alloc: Global) -> Seen
        ensures { HasSeen result [] }
    {
        Seen {
            kinds: BTreeMap::new(alloc),
            places: BTreeSet::new(alloc),
        }
    }

    pub(crate) fn has_key(&self, key: Key) -> bool
        ensures { (items : List Item) → HasSeen self.now items → MatchBool result (listed_kind items key.0 ≢ None) (listed_kind items key.0 ≡ None) }
    {
        self.kinds.contains_key(&key.0)
    }

    /// Whether the key is that of the folder itself, or of a folder that was listed.
    pub(crate) fn has_folder(&self, key: Key) -> bool
        ensures { (items : List Item) → HasSeen self.now items → MatchBool result (IsListedFolder items key.0) (¬ (IsListedFolder items key.0)) }
    {
        key.0 == 0 || is_folder(self.kinds.get(&key.0).copied())
    }

    /// Whether an item stands at the place of this one.
    pub(crate) fn has_place(&self, place: &ItemPlace) -> bool
        ensures { (items : List Item) (item : Item) → HasSeen self.now items → place.now ≡ place_of item → MatchBool result (¬ (IsPlacedApart items item)) (IsPlacedApart items item) }
    {
        self.places.contains(place)
    }

    /// After an error it is of no use.
    pub(crate) fn add(&mut self, key: Key, kind: Kind, place: ItemPlace) -> Result<(), AllocError>
        ensures { OnOk result ((items : List Item) (item : Item) → HasSeen self.old items → listed_kind items item.key.0 ≡ None
            → key ≡ item.key → kind ≡ kind_of item.content → place ≡ place_of item → HasSeen self.new (items ++ item ∷ [])) }
    {
        self.kinds.insert(key.0, kind)?;
        self.places.insert(place)?;
        Ok(())
    }
}

fn is_folder(kind: Option<Kind>) -> bool
    ensures { MatchBool result (kind ≡ Some Kind.Folder) (kind ≢ Some Kind.Folder) }
{
    kind == Some(Kind::Folder)
}
