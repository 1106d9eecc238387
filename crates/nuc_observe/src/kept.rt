ghost use Rattle.std.specs.Prelude.{◌≡◌};
ghost use Rattle.std.specs.Option.{option_copied};
ghost use Rattle.nuc_observe.specs.Versions as version;

use nuc_base::{Node, Ver};
use nuc_edits::Edits;
use nuc_hash::Digest;

/// The version that a listed file of this hash keeps, of what Local, Synced and Remote have of it. None where the file
/// needs a new one.
///
/// It is Local's where that has the hash. Else it is Remote's, where that has the hash and Local and Synced have one
/// version.
pub fn kept_version(
    local: Option<&Node>,
    synced: Option<&Node>,
    remote: Option<&Node>,
    hash: &Digest,
    edits: &Edits,
) -> Option<Ver>
    ensures { result ≡ version.kept_version (version.has_hash edits.now.now.edits hash.now) (option_copied local.entry) (option_copied synced.entry) (option_copied remote.entry) }
{
    let local = local?;
    if has_hash(local.ver, hash, edits) {
        return Some(local.ver);
    }
    agreed_version(local, synced, remote, hash, edits)
}

fn agreed_version(
    local: &Node,
    synced: Option<&Node>,
    remote: Option<&Node>,
    hash: &Digest,
    edits: &Edits,
) -> Option<Ver>
    ensures { result ≡ version.agreed_version (version.has_hash edits.now.now.edits hash.now) local.now (option_copied synced.entry) (option_copied remote.entry) }
{
    let synced = synced?;
    let remote = remote?;
    if local.ver == synced.ver && has_hash(remote.ver, hash, edits) {
        Some(remote.ver)
    } else {
        None
    }
}

fn has_hash(ver: Ver, hash: &Digest, edits: &Edits) -> bool
    ensures { result ≡ version.has_hash edits.now.now.edits hash.now ver }
{
    match edits.content(ver) {
        Some(content) => content.hash().0 == hash.0,
        None => false,
    }
}
