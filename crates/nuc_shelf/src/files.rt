ghost use Rattle.std.specs.Prelude.{◌≡◌, ◌+◌, ◌<◌, ◌≤◌, MatchBool, OnOk, OnErr};
ghost use Rattle.std.specs.FinMap as map;
ghost use Rattle.std.specs.Option.{option_copied};
ghost use Rattle.indexmap.specs.IndexMap.{spare};
ghost use Rattle.nuc_shelf.specs.Files.{bytes_of, led};

use crate::ShelfFile;
use indexmap::IndexMap;
use std::alloc::{AllocError, Global};
use std::marker::Model;

/// How a change is taken back: by what the key had before, if anything.
#[derive(Debug, Drop)]
pub(crate) struct Undo {
    pub(crate) key: u64,
    pub(crate) before: Option<ShelfFile>,
}

/// The files, by key, with each change since the last `settle` noted.
///
/// Look-ups and changes take the same time however many files there are.
#[derive(Debug, Drop)]
pub(crate) struct Files {
    files: IndexMap<u64, ShelfFile>,
    undos: Vec<Undo>,
}

impl Model for Files {
    ghost use Rattle.std.specs.Prelude.{◌-◌, ◌≤◌, length, vec_capacity, vec_len};
    ghost use Rattle.indexmap.specs.IndexMap.{spare};
    ghost use Rattle.nuc_shelf.specs.Codes.{files_code};
    ghost use Rattle.nuc_shelf.specs.Files.{FilesState, files_state};

    ghost Value = { FilesState };

    ghost coded = { files_code };

    ghost view = { λ f. files_state f.files.entries f.undos.items (vec_capacity f.undos - vec_len f.undos) (spare f.files) };

    ghost invariant = { λ f. length f.undos.items ≤ spare f.files };
}

impl Files {
    /// No files, in no memory.
    pub(crate) fn new(alloc: Global) -> Files
        ensures now { result.now ≡ map.empty }
        ensures settled { result.settled ≡ map.empty }
    {
        Files {
            files: IndexMap::new(alloc),
            undos: Vec::new(alloc),
        }
    }

    pub(crate) fn get(&self, key: u64) -> Option<&ShelfFile>
        ensures { option_copied result ≡ map.get self.now.now key }
    {
        self.files.get(&key)
    }

    /// Makes room for that many changes, and for taking them back. Where the room is there already, it can't fail.
    pub(crate) fn reserve(&mut self, changes: u64) -> Result<(), AllocError>
        ensures ok { OnOk result (changes ≤ self.new.room) }
        ensures memory { OnErr result (self.old.room < changes) }
        ensures room { self.old.room ≤ self.new.room }
        ensures now { self.new.now ≡ self.old.now }
        ensures settled { self.new.settled ≡ self.old.settled }
    {
        let changes = changes as usize;
        self.undos.reserve(changes)?;
        self.files.reserve(self.undos.len() + changes * 2)
    }

    /// Gives a key a file, or none. It takes no memory.
    pub(crate) fn set(&mut self, key: u64, file: Option<ShelfFile>)
        requires { 0 < self.old.room }
        ensures now { self.new.now ≡ led self.old.now key file }
        ensures settled { self.new.settled ≡ self.old.settled }
        ensures room { self.old.room ≤ self.new.room + 1 }
    {
        let before = exchange(&mut self.files, key, file);
        self.undos.push_reserved(Undo { key, before });
    }

    /// Takes the last change since `settle` back, if there is one.
    fn undo_last(&mut self) -> bool
        ensures last { MatchBool result (self.new.changes < self.old.changes) (self.new.now ≡ self.new.settled) }
        ensures settled { self.new.settled ≡ self.old.settled }
    {
        let Some(Undo { key, before }) = self.undos.pop() else {
            return false;
        };
        exchange(&mut self.files, key, before);
        true
    }

    /// What there is now is what `back` leads to. It takes no memory.
    pub(crate) fn settle(&mut self)
        ensures now { self.new.now ≡ self.old.now }
        ensures settled { self.new.settled ≡ self.old.now }
        ensures room { self.old.room ≤ self.new.room }
    {
        self.undos.clear();
    }

    /// Takes back all changes since `settle`. It takes no memory.
    pub(crate) fn back(&mut self)
        ensures now { self.new.now ≡ self.old.settled }
        ensures settled { self.new.settled ≡ self.old.settled }
    {
        while self.undo_last() {}
    }
}

/// Gives a key a file, or none, and hands over what it had. It takes no memory.
fn exchange(
    files: &mut IndexMap<u64, ShelfFile>,
    key: u64,
    file: Option<ShelfFile>,
) -> Option<ShelfFile>
    requires { 0 < spare files.old }
    ensures now { bytes_of files.new.entries ≡ led (bytes_of files.old.entries) key file }
    ensures before { result ≡ map.get (bytes_of files.old.entries) key }
    ensures spare { spare files.old ≤ spare files.new + 1 }
{
    match file {
        Some(file) => match files.insert(key, file) {
            Ok(before) => before,
            Err(_) => unreachable!(),
        },
        None => files.swap_remove(&key),
    }
}
