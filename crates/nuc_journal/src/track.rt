ghost use Rattle.std.specs.Prelude.{◌≡◌, ◌<◌, ◌≤◌, ◌==◌, ◌+◌, ◌-◌, ◌++◌, ◌∷◌, [], ℕ, List, cond, nat_eq, take, vec_len, vec_capacity, IsSome, MatchOption, Some};
ghost use Rattle.indexmap.specs.IndexMap.{get, spare};
ghost use Rattle.nuc_journal.specs.Tracks.{Tells, IsTrack, AreTracks, AreBefore};
ghost use Rattle.nuc_journal.specs.declared.entry.Entry.{Entry};

use crate::Entry;
use indexmap::IndexMap;
use nuc_base::{Kind, NodeId};

/// What the entries of one identity come to.
#[derive(Clone, Copy, Debug, PartialEq, Eq)]
pub struct Track {
    /// The identity's current revision, 0 where its node went.
    pub rev: u64,
    pub kind: Kind,
}

/// What the identity of an entry comes to with it, of what it came to before.
pub fn next_track(prior: Option<Track>, entry: &Entry) -> Option<Track>
    ensures { (es : List Entry) → IsTrack prior es entry.now.id.0 → IsTrack result (es ++ entry.now ∷ []) entry.now.id.0 }
{
    match &entry.value {
        Some(node) => Some(Track {
            rev: entry.rev,
            kind: node.kind,
        }),
        None => gone(prior),
    }
}

/// What an identity comes to once its node went.
fn gone(prior: Option<Track>) -> Option<Track>
    ensures { (rev : ℕ) (kind : _) → Tells prior rev kind → Tells result 0 kind }
{
    match prior {
        Some(track) => Some(Track {
            rev: 0,
            kind: track.kind,
        }),
        None => None,
    }
}

/// What the entries of an identity come to.
pub fn track_of(tracks: &IndexMap<u64, Track>, id: NodeId) -> Option<Track>
    ensures { result ≡ get nat_eq tracks.now id.0 }
{
    tracks.get(&id.0).copied()
}

/// Writes down what an identity comes to and, beside the entry that did it, what it came to before.
pub fn note(
    tracks: &mut IndexMap<u64, Track>,
    before: &mut Vec<Option<Track>>,
    id: NodeId,
    prior: Option<Track>,
    next: Option<Track>,
)
    requires room { vec_len before.old < vec_capacity before.old }
    requires spare { 0 < spare tracks.old }
    ensures before { before.new.items ≡ before.old.items ++ prior ∷ [] }
    ensures len { vec_len before.new ≡ vec_len before.old + 1 }
    ensures capacity { vec_capacity before.old ≤ vec_capacity before.new }
    ensures tracks { MatchOption next ((x : ℕ) → get nat_eq tracks.new x ≡ get nat_eq tracks.old x) (λ t. (x : ℕ) → get nat_eq tracks.new x ≡ cond (id.0 == x) (Some t) (get nat_eq tracks.old x)) }
    ensures spare { spare tracks.old ≤ spare tracks.new + 1 }
{
    let _ = before.push(prior);
    if let Some(track) = next {
        let _ = tracks.insert(id.0, track);
    }
}

/// Gives an identity its old track again. It wants no memory.
fn restore(tracks: &mut IndexMap<u64, Track>, id: NodeId, prior: Option<Track>)
    requires { IsSome prior → IsSome (get nat_eq tracks.old id.0) }
    ensures tracks { (x : ℕ) → get nat_eq tracks.new x ≡ cond (id.0 == x) prior (get nat_eq tracks.old x) }
    ensures spare { spare tracks.old ≤ spare tracks.new }
{
    match prior {
        Some(track) => {
            if let Some(place) = tracks.get_mut(&id.0) {
                *place = track;
            }
        }
        None => {
            tracks.swap_remove(&id.0);
        }
    }
}

/// Takes the last entry out, with what was written down for it. It wants no memory.
pub fn take_back(
    entries: &mut Vec<Entry>,
    before: &mut Vec<Option<Track>>,
    tracks: &mut IndexMap<u64, Track>,
)
    requires tracks { AreTracks (get nat_eq tracks.old) entries.old.items }
    requires before { AreBefore before.old.items entries.old.items }
    ensures entries { entries.new.items ≡ take (vec_len entries.old - 1) entries.old.items }
    ensures tracks { AreTracks (get nat_eq tracks.new) entries.new.items }
    ensures before { AreBefore before.new.items entries.new.items }
    ensures spare { spare tracks.old ≤ spare tracks.new }
    ensures capacity { (vec_capacity entries.new ≡ vec_capacity entries.old) × (vec_capacity before.new ≡ vec_capacity before.old) }
{
    if let (Some(entry), Some(prior)) = (entries.pop(), before.pop()) {
        restore(tracks, entry.id, prior);
    }
}
