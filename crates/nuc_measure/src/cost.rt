ghost use Rattle.std.specs.Prelude.{◌≡◌, ◌≤◌, Some};
ghost use Rattle.std.specs.Option.{option_copied};
ghost use Rattle.nuc_class.specs.Equal as test;
ghost use Rattle.nuc_class.specs.Merge.{target};
ghost use Rattle.nuc_measure.specs.Cost as spec;

use nuc_base::{Hashes, Node};
use nuc_class::{needs_split, place_eq, value_eq};

/// What the values of an identity in Remote, Local and Synced cost.
pub(crate) fn cost_of<H: Hashes>(h: &H, r: Option<&Node>, l: Option<&Node>, s: Option<&Node>) -> u64
    ensures few { result ≤ 3 }
    ensures cost { result ≡ spec.cost (H.same h.now) (option_copied r.entry) (option_copied l.entry) (option_copied s.entry) }
{
    match (r, l, s) {
        (Some(r), Some(l), _) => cost_of_both(h, r, l, s),
        (None, None, None) => 0,
        _ => 1,
    }
}

fn cost_of_both<H: Hashes>(h: &H, r: &Node, l: &Node, s: Option<&Node>) -> u64
    ensures few { result ≤ 3 }
    ensures cost { result ≡ spec.cost (H.same h.now) (Some r.now) (Some l.now) (option_copied s.entry) }
{
    if needs_split(Some(r), Some(l), s, h) {
        3
    } else if value_eq(Some(r), s) {
        if value_eq(Some(l), Some(r)) { 0 } else { 1 }
    } else if ends_alike(r, l, s) {
        1
    } else {
        2
    }
}

/// Whether a Down makes Local as Remote: no part of the node that Remote has kept since Synced is other in Local.
fn ends_alike(r: &Node, l: &Node, s: Option<&Node>) -> bool
    ensures { result ≡ test.node_eq (target r.now (Some l.now) (option_copied s.entry)) r.now }
{
    let Some(s) = s else { return true };
    let place = !place_eq(&r.place, &s.place) || place_eq(&l.place, &r.place);
    let ver = r.ver != s.ver || l.ver == r.ver;
    let bit = r.bit != s.bit || l.bit == r.bit;
    place && ver && bit
}
