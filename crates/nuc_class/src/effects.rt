ghost use Rattle.std.specs.Prelude.{◌≡◌};
ghost use Rattle.std.specs.Option.{option_copied};
ghost use Rattle.nuc_class.specs.Effects as effects;

use crate::Effect;
use crate::equal::place_eq;
use crate::split::same_content;
use nuc_base::{Change, Hashes, Node};

/// Where an operation is carried out, by its changes of Local and Remote, and by what Local had.
pub fn effect_of<H: Hashes>(
    old_local: Option<&Node>,
    local: &Change,
    remote: &Change,
    h: &H,
) -> Effect
    ensures { result ≡ effects.effect_of (H.same h.now) (option_copied old_local.entry) local.now remote.now }
{
    match remote {
        Change::Keep if is_shown(old_local, local, h) => Effect::Disk,
        Change::Keep => Effect::Nothing,
        Change::Put(_) | Change::Cut => Effect::Commit,
    }
}

/// Whether a folder shows such a change of what Local had.
fn is_shown<H: Hashes>(old: Option<&Node>, change: &Change, h: &H) -> bool
    ensures { result ≡ effects.is_shown (H.same h.now) (option_copied old.entry) change.now }
{
    match (old, change) {
        (_, Change::Keep) | (None, Change::Cut) => false,
        (None, Change::Put(_)) | (Some(_), Change::Cut) => true,
        (Some(old), Change::Put(new)) => !looks_same(old, new, h),
    }
}

fn looks_same<H: Hashes>(a: &Node, b: &Node, h: &H) -> bool
    ensures { result ≡ effects.looks_same (H.same h.now) a.now b.now }
{
    place_eq(&a.place, &b.place) && same_content(a.ver, b.ver, h) && a.bit == b.bit
}
