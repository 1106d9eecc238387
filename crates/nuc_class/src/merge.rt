ghost use Rattle.std.specs.Prelude.{◌≡◌, IfOk};
ghost use Rattle.std.specs.Option.{option_copied};
ghost use Rattle.nuc_class.specs.Merge as merge;

use crate::place_eq;
use nuc_base::Node;
use std::alloc::{AllocError, Global};

/// What a Down puts in Local: what Remote changed since Synced, and for the rest what Local has.
pub fn target(
    alloc: Global,
    r: &Node,
    l: Option<&Node>,
    s: Option<&Node>,
) -> Result<Node, AllocError>
    ensures { IfOk result (λ node. node ≡ merge.target r.now (option_copied l.entry) (option_copied s.entry)) }
{
    match (l, s) {
        (Some(l), Some(s)) => merged(alloc, r, l, s),
        _ => r.copy(alloc),
    }
}

fn merged(alloc: Global, r: &Node, l: &Node, s: &Node) -> Result<Node, AllocError>
    ensures { IfOk result (λ node. node ≡ merge.target r.now (Some l.now) (Some s.now)) }
{
    let place = if place_eq(&r.place, &s.place) {
        &l.place
    } else {
        &r.place
    };
    Ok(Node {
        place: place.copy(alloc)?,
        kind: r.kind,
        ver: if r.ver == s.ver { l.ver } else { r.ver },
        bit: if r.bit == s.bit { l.bit } else { r.bit },
    })
}
