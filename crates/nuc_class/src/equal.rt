ghost use Rattle.std.specs.Prelude.{◌≡◌, ◌≢◌, MatchBool};
ghost use Rattle.std.specs.Option.{option_copied};
ghost use Rattle.nuc_class.specs.Equal as test;

use nuc_base::{Node, Place};

/// Whether two places are equal, byte for byte. Whether a place is held by another is asked by `Name::same`.
pub fn place_eq(a: &Place, b: &Place) -> bool
    ensures { result ≡ test.place_eq a.now b.now }
{
    a.parent == b.parent && a.name.bytes() == b.name.bytes()
}

/// Whether two values of an identity are equal: both absent, or equal nodes.
pub fn value_eq(a: Option<&Node>, b: Option<&Node>) -> bool
    ensures value { result ≡ test.value_eq (option_copied a.entry) (option_copied b.entry) }
    ensures tells { MatchBool result (option_copied a.entry ≡ option_copied b.entry) (option_copied a.entry ≢ option_copied b.entry) }
{
    match (a, b) {
        (None, None) => true,
        (Some(a), Some(b)) => node_eq(a, b),
        (None, Some(_)) | (Some(_), None) => false,
    }
}

fn node_eq(a: &Node, b: &Node) -> bool
    ensures value { result ≡ test.node_eq a.now b.now }
    ensures tells { MatchBool result (a.now ≡ b.now) (a.now ≢ b.now) }
{
    place_eq(&a.place, &b.place) && a.kind == b.kind && a.ver == b.ver && a.bit == b.bit
}
