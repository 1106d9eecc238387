ghost use Rattle.nuc_observe.specs.Order.{place_order, place_order-total};
ghost use Rattle.std.specs.Prelude.{Some, refl};
ghost use Rattle.std.specs.Cmp.{partial_equiv_from_equiv, eq_by_cmp_equiv, partial_order_from_agreeing_total};
ghost use Rattle.std.specs.Ordering.{is_eq};

use nuc_base::Name;
use std::cmp::Ordering;

/// Where an item stands, ordered by the parent's key and then by the name. Two that compare `Equal` can't stand beside
/// each other.
#[derive(Debug, Drop)]
pub(crate) struct ItemPlace {
    pub(crate) parent: u64,
    pub(crate) name: Name,
}

impl PartialEq for ItemPlace {
    ghost eq = { λ p q. is_eq (place_order p q) };

    ghost laws = { partial_equiv_from_equiv (eq_by_cmp_equiv place_order-total) };

    fn eq(&self, other: &ItemPlace) -> bool {
        self.cmp(other).is_eq()
    }
}

impl Eq for ItemPlace {
    ghost laws = { eq_by_cmp_equiv place_order-total };
}

impl PartialOrd for ItemPlace {
    ghost partial_cmp = { λ p q. Some (place_order p q) };

    ghost laws = { partial_order_from_agreeing_total place_order place_order-total (λ p q. refl) (λ p q. refl) };

    fn partial_cmp(&self, other: &ItemPlace) -> Option<Ordering> {
        Some(self.cmp(other))
    }
}

impl Ord for ItemPlace {
    ghost cmp = { place_order };

    ghost total = { place_order-total };

    ghost matches_partial_cmp = { λ p q. refl };

    ghost matches_eq = { λ p q. refl };

    fn cmp(&self, other: &ItemPlace) -> Ordering {
        match self.parent.cmp(&other.parent) {
            Ordering::Equal => self.name.order(&other.name),
            unequal => unequal,
        }
    }
}
