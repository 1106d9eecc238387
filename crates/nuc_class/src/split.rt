ghost use Rattle.std.specs.Prelude.{◌≡◌};
ghost use Rattle.std.specs.Option.{option_copied};
ghost use Rattle.nuc_class.specs.Split as split;

use nuc_base::{Hashes, Kind, Node, Ver};

/// Whether Remote and Local have two contents of one file, each other than Synced's.
pub fn needs_split<H: Hashes>(r: Option<&Node>, l: Option<&Node>, s: Option<&Node>, h: &H) -> bool
    ensures { result ≡ split.needs_split (H.same h.now) (option_copied r.entry) (option_copied l.entry) (option_copied s.entry) }
{
    match (r, l) {
        (Some(r), Some(l)) => {
            r.kind == Kind::File
                && is_new(s, r.ver)
                && is_new(s, l.ver)
                && !same_content(l.ver, r.ver, h)
        }
        _ => false,
    }
}

/// Whether two versions are one, or have equal hashes.
pub(crate) fn same_content<H: Hashes>(a: Ver, b: Ver, h: &H) -> bool
    ensures { result ≡ split.same_content (H.same h.now) a.0 b.0 }
{
    a == b || h.same(a, b)
}

fn is_new(s: Option<&Node>, ver: Ver) -> bool
    ensures { result ≡ split.is_new (option_copied s.entry) ver.0 }
{
    match s {
        Some(s) => s.ver != ver,
        None => true,
    }
}
