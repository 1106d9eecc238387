ghost use Rattle.std.specs.Prelude.{◌≡◌, ◌+◌, ◌≤◌, ◌↔◌, [], ◌∷◌, ◌++◌, ℕ, length, slice_get, IfOk, IfErr, IsOk, IsTrue, OnOk, OnErr};
ghost use Rattle.std.specs.Option.{option_copied};
ghost use Rattle.std.specs.Result.{IsErrOf};

use crate::marks::Marks;
use crate::{AdoptFault, Adoption, Edit, EditKind};
use indexmap::IndexMap;
use nuc_base::{Counters, Hashes, NodeId, Ver};
use nuc_hash::Content;
use std::alloc::{AllocError, Global};
use std::marker::Model;

/// The recorded edits and adoptions, each in the order in which they were entered.
///
/// Nothing is ever lost but what `back` takes back: all that was entered since `settle` was last called.
#[derive(Debug, Drop)]
pub struct Edits {
    /// By version.
    entries: IndexMap<u64, Edit>,
    /// The versions that an edit replaces.
    bases: Marks,
    adoptions: Vec<Adoption>,
    /// The versions that were adopted into another.
    adopted: Marks,
    settled_edits: usize,
    settled_adoptions: usize,
}

impl Model for Edits {
    ghost use Rattle.std.specs.Prelude.{◌-◌, min, take, vec_len, vec_capacity};
    ghost use Rattle.indexmap.specs.IndexMap.{values};
    ghost use Rattle.nuc_edits.specs.Edits.{EditsState};
    ghost use Rattle.nuc_edits.specs.Tied.{AreTied};

    ghost Value = { EditsState };

    ghost view = { λ e. record {
      now = record { edits = values e.entries; adoptions = e.adoptions.items };
      settled = record { edits = take e.settled_edits (values e.entries); adoptions = take e.settled_adoptions e.adoptions.items };
      spare = min (vec_capacity e.adoptions - vec_len e.adoptions) e.adopted.spare;
    } };

    ghost invariant = { λ e. AreTied e.entries.entries e.adoptions.items e.bases e.adopted e.settled_edits e.settled_adoptions };
}

ghost use Rattle.nuc_edits.specs.Edits.{IsNext, WasPut, AdoptFaulty, content_at, content_put, both_same, same_hash, is_base, is_adopted};

impl Edits {
    /// No edits and no adoptions, in no memory.
    pub fn new(alloc: Global) -> Edits
        ensures now { result.now ≡ record { edits = []; adoptions = [] } }
        ensures settled { result.settled ≡ record { edits = []; adoptions = [] } }
    {
        Edits {
            entries: IndexMap::new(alloc),
            bases: Marks::new(alloc),
            adoptions: Vec::new(alloc),
            adopted: Marks::new(alloc),
            settled_edits: 0,
            settled_adoptions: 0,
        }
    }

    /// Records an edit of `id` under the next version, which it returns. It fails where memory lacks, and where no
    /// version after that one would be left.
    pub fn enter(
        &mut self,
        ids: &mut Counters,
        id: NodeId,
        base: Ver,
        what: EditKind,
    ) -> Result<Ver, AllocError>
        requires { IsNext ids.old.next_ver self.old.now.edits }
        ensures version { IfOk result (λ ver. ver.0 ≡ ids.old.next_ver) }
        ensures edit { IfOk result (λ ver. self.new.now ≡ record self.old.now { edits = self.old.now.edits ++ record { ver = ver; id = id; base = base; what = what } ∷ [] }) }
        ensures content { IfOk result (λ ver. content_at self.new.now.edits ver.0 ≡ content_put what) }
        ensures kept { (v : ℕ) → WasPut self.old.now.edits v → content_at self.new.now.edits v ≡ content_at self.old.now.edits v }
        ensures counters { OnOk result (ids.new ≡ record ids.old { next_ver = ids.old.next_ver + 1 }) }
        ensures next { IsNext ids.new.next_ver self.new.now.edits }
        ensures settled { self.new.settled ≡ self.old.settled }
        ensures spare { self.new.spare ≡ self.old.spare }
        ensures err { OnErr result (self.new.now ≡ self.old.now) }
        ensures err_counters { OnErr result (ids.new ≡ ids.old) }
    {
        let next_ver = ids.next_ver.checked_add(1).ok_or(AllocError)?;
        self.bases.reserve(1)?;
        let ver = Ver(ids.next_ver);
        self.entries.insert(
            ver.0,
            Edit {
                ver,
                id,
                base,
                what,
            },
        )?;
        self.bases.mark(base.0).unwrap();
        ids.next_ver = next_ver;
        Ok(ver)
    }

    /// Records that `old` is adopted into `into`.
    ///
    /// It answers `HashesDiffer` where their contents have other hashes, and `Memory` only where no room was reserved.
    pub fn adopt(&mut self, old: Ver, into: Ver) -> Result<(), AdoptFault>
        requires old { WasPut self.old.now.edits old.0 }
        requires into { WasPut self.old.now.edits into.0 }
        ensures ok { OnOk result (self.new.now ≡ record self.old.now { adoptions = self.old.now.adoptions ++ record { old = old; into = into } ∷ [] }) }
        ensures same { OnOk result (IsTrue (same_hash self.old.now.edits old.0 into.0)) }
        ensures fault { IfErr result (AdoptFaulty self.old.now.edits old into) }
        ensures memory { IsErrOf result AdoptFault.Memory → self.old.spare ≡ 0 }
        ensures settled { self.new.settled ≡ self.old.settled }
        ensures spare { self.old.spare ≤ self.new.spare + 1 }
        ensures err { OnErr result (self.new.now ≡ self.old.now) }
        ensures err_spare { OnErr result (self.old.spare ≤ self.new.spare) }
    {
        if !self.same(old, into) {
            return Err(AdoptFault::HashesDiffer(old, into));
        }
        self.reserve(1).map_err(|_| AdoptFault::Memory)?;
        self.adoptions.push_reserved(Adoption { old, into });
        self.adopted.mark(old.0).unwrap();
        Ok(())
    }

    /// Makes room for `n` more adoptions, so that they need no memory.
    pub fn reserve(&mut self, n: u64) -> Result<(), AllocError>
        ensures ok { OnOk result (n ≤ self.new.spare) }
        ensures succeeds { n ≤ self.old.spare → IsOk result }
        ensures now { self.new.now ≡ self.old.now }
        ensures settled { self.new.settled ≡ self.old.settled }
        ensures spare { self.old.spare ≤ self.new.spare }
    {
        self.adoptions.reserve(n as usize)?;
        self.adopted.reserve(n as usize)
    }

    /// Keeps all that is recorded now for good.
    pub fn settle(&mut self)
        ensures { self.new ≡ record self.old { settled = self.old.now } }
    {
        self.settled_edits = self.entries.len();
        self.bases.settle();
        self.settled_adoptions = self.adoptions.len();
        self.adopted.settle();
    }

    /// Takes back what was recorded since `settle`.
    pub fn back(&mut self)
        ensures now { self.new.now ≡ self.old.settled }
        ensures settled { self.new.settled ≡ self.old.settled }
        ensures spare { self.old.spare ≤ self.new.spare }
        ensures next { (next : ℕ) → IsNext next self.old.now.edits → IsNext next self.new.now.edits }
    {
        self.entries.truncate(self.settled_edits);
        self.bases.back();
        self.adoptions.truncate(self.settled_adoptions);
        self.adopted.back();
    }

    /// The number of edits.
    pub fn len(&self) -> u64
        ensures { result ≡ length self.now.now.edits }
    {
        self.entries.len() as u64
    }

    /// Whether there are no edits.
    pub fn is_empty(&self) -> bool
        ensures { IsTrue result ↔ (self.now.now.edits ≡ []) }
    {
        self.entries.is_empty()
    }

    /// The edit that was entered after `index` others.
    pub fn entry(&self, index: u64) -> Option<&Edit>
        ensures { option_copied result ≡ slice_get self.now.now.edits index }
    {
        let (_, edit) = self.entries.get_index(index as usize)?;
        Some(edit)
    }

    pub fn adoption_count(&self) -> u64
        ensures { result ≡ length self.now.now.adoptions }
    {
        self.adoptions.len() as u64
    }

    /// The adoption that was entered after `index` others.
    pub fn adoption(&self, index: u64) -> Option<&Adoption>
        ensures { option_copied result ≡ slice_get self.now.now.adoptions index }
    {
        self.adoptions.get(index as usize)
    }

    /// What the edit of version `v` put. None where it put nothing, and where there is no such edit.
    pub fn content(&self, v: Ver) -> Option<&Content>
        ensures { option_copied result ≡ content_at self.now.now.edits v.0 }
    {
        put_by(self.entries.get(&v.0)?)
    }

    /// Whether an edit replaces version `v`.
    pub fn based(&self, v: Ver) -> bool
        ensures { result ≡ is_base self.now.now.edits v.0 }
    {
        self.bases.has(v.0)
    }

    /// Whether version `v` was adopted into another.
    pub fn adopted(&self, v: Ver) -> bool
        ensures { result ≡ is_adopted self.now.now.adoptions v.0 }
    {
        self.adopted.has(v.0)
    }
}

impl Hashes for Edits {
    ghost same = { λ e a b. same_hash e.now.edits a b };

    /// Whether both versions were put, with equal hashes.
    fn same(&self, a: Ver, b: Ver) -> bool {
        are_same(self.content(a), self.content(b))
    }
}

fn put_by(edit: &Edit) -> Option<&Content>
    ensures { option_copied result ≡ content_put edit.now.what }
{
    match &edit.what {
        EditKind::Put(content) => Some(content),
        EditKind::Deleted => None,
    }
}

fn are_same(a: Option<&Content>, b: Option<&Content>) -> bool
    ensures { result ≡ both_same (option_copied a.entry) (option_copied b.entry) }
{
    match (a, b) {
        (Some(a), Some(b)) => a.hash().0 == b.hash().0,
        _ => false,
    }
}
