ghost use Rattle.std.specs.Prelude.{◌≡◌, ◌<◌, ◌≤◌, ◌+◌, OnOk, OnErr};
ghost use Rattle.std.specs.FinMap as map;
ghost use Rattle.std.specs.Option.{option_copied};
ghost use Rattle.nuc_base.specs.Legal.{LegalPut, LegalCut};
ghost use Rattle.nuc_shelf.specs.Shelf.{IsFile, IsShelf, LegalMove, empty_shelf, file_at, folder_at, marked, moved, refilled, with_file, with_folder, without};

use crate::ShelfFile;
use crate::files::Files;
use nuc_base::{Kind, Node, NodeId, Place, TreeLike, Ver};
use nuc_index::IndexTree;
use nuc_undo::UndoTree;
use std::alloc::{AllocError, Global};
use std::marker::Model;

/// Files and folders, each under a key, as a folder in memory holds them. What was changed since the last `settle` can
/// be taken back. `spare` counts the changes that have room already; what a change copies is no part of that.
///
/// They are the nodes of a tree, whose identities are the keys; key 0 is the root. A folder has version 0, each file
/// version 1. A change takes time in the logarithm of the number of nodes, moves the rest of a few lists by one, and
/// hashes the bytes that it is given; `back` takes the time of the changes that it takes back.
#[derive(Drop)]
pub struct Shelf {
    tree: UndoTree<IndexTree>,
    files: Files,
}

impl Model for Shelf {
    ghost use Rattle.std.specs.Prelude.{min};
    ghost use Rattle.nuc_undo.specs.State.{settled_of};
    ghost use Rattle.nuc_shelf.specs.Codes.{states_code};
    ghost use Rattle.nuc_shelf.specs.Shelf.{IsShelf, ShelfStates};

    ghost Value = { ShelfStates };

    ghost coded = { states_code };

    ghost view = { λ s. record {
      now = record { tree = s.tree.now; bytes = s.files.now };
      settled = record { tree = settled_of s.tree; bytes = s.files.settled };
      spare = min s.tree.spare s.files.room;
    } };

    ghost invariant = { λ s. IsShelf (record { tree = s.tree.now; bytes = s.files.now }) × IsShelf (record { tree = settled_of s.tree; bytes = s.files.settled }) };
}

impl Shelf {
    /// A shelf with nothing on it, settled. It takes no memory.
    pub fn new(alloc: Global) -> Shelf
        ensures now { result.now ≡ empty_shelf }
        ensures settled { result.settled ≡ empty_shelf }
    {
        Shelf {
            tree: UndoTree::of(alloc, IndexTree::new(alloc)),
            files: Files::new(alloc),
        }
    }

    /// The nodes of all files and folders.
    pub fn tree(&self) -> &IndexTree
        ensures nodes { result.now.nodes ≡ self.now.now.tree }
        ensures shelf { IsShelf self.now.now }
        ensures settled { IsShelf self.now.settled }
    {
        self.tree.tree()
    }

    /// The file under a key; none where nothing or a folder has it.
    pub fn file(&self, key: u64) -> Option<&ShelfFile>
        ensures { option_copied result ≡ map.get self.now.now.bytes key }
    {
        self.files.get(key)
    }

    /// Makes room for that many more changes, and for taking them back. Where the room is there already, it can't fail; a
    /// number too great to be had is want of memory.
    pub fn reserve(&mut self, changes: u64) -> Result<(), AllocError>
        ensures ok { OnOk result (changes ≤ self.new.spare) }
        ensures memory { OnErr result (self.old.spare < changes) }
        ensures now { self.new.now ≡ self.old.now }
        ensures settled { self.new.settled ≡ self.old.settled }
        ensures shelf { IsShelf self.new.now }
    {
        self.tree.reserve(changes)?;
        self.files.reserve(changes)
    }

    /// Adds a folder under a key. Where a folder has that key already, it is put at the place.
    pub fn add_folder(&mut self, key: u64, place: Place) -> Result<(), AllocError>
        requires key { 0 < key }
        requires legal { LegalPut self.old.now.tree key (folder_at place) }
        ensures ok { OnOk result (self.new.now ≡ with_folder self.old.now key place) }
        ensures err { OnErr result (self.new.now ≡ self.old.now) }
        ensures settled { self.new.settled ≡ self.old.settled }
        ensures shelf { IsShelf self.new.now }
    {
        let node = Node {
            place,
            kind: Kind::Folder,
            ver: Ver(0),
            bit: false,
        };
        self.tree.put(NodeId(key), node)?;
        Ok(())
    }

    /// Adds a file under a key, with a copy of these bytes. Where a file has that key already, place, bit and bytes take
    /// the place of its own.
    pub fn add_file(
        &mut self,
        alloc: Global,
        key: u64,
        place: Place,
        bytes: &[u8],
        bit: bool,
    ) -> Result<(), AllocError>
        requires key { 0 < key }
        requires legal { LegalPut self.old.now.tree key (file_at place bit) }
        ensures ok { OnOk result (self.new.now ≡ with_file self.old.now key place bit bytes.now) }
        ensures err { OnErr result (self.new.now ≡ self.old.now) }
        ensures settled { self.new.settled ≡ self.old.settled }
        ensures shelf { IsShelf self.new.now }
    {
        self.reserve(1)?;
        let file = ShelfFile::of(alloc, bytes)?;
        self.put_file(key, place, file, bit)
    }

    /// Adds a file under a key. Where a file has that key already, place, bit and bytes take the place of its own.
    pub fn put_file(
        &mut self,
        key: u64,
        place: Place,
        file: ShelfFile,
        bit: bool,
    ) -> Result<(), AllocError>
        requires key { 0 < key }
        requires legal { LegalPut self.old.now.tree key (file_at place bit) }
        ensures ok { OnOk result (self.new.now ≡ with_file self.old.now key place bit file) }
        ensures err { OnErr result (self.new.now ≡ self.old.now) }
        ensures settled { self.new.settled ≡ self.old.settled }
        ensures shelf { IsShelf self.new.now }
    {
        self.files.reserve(1)?;
        let node = Node {
            place,
            kind: Kind::File,
            ver: Ver(1),
            bit,
        };
        self.tree.put(NodeId(key), node)?;
        self.files.set(key, Some(file));
        Ok(())
    }

    /// Gives a file a copy of these bytes in place of its own.
    pub fn refill(&mut self, alloc: Global, key: u64, bytes: &[u8]) -> Result<(), AllocError>
        requires { IsFile self.old.now.tree key }
        ensures ok { OnOk result (self.new.now ≡ refilled self.old.now key bytes.now) }
        ensures err { OnErr result (self.new.now ≡ self.old.now) }
        ensures settled { self.new.settled ≡ self.old.settled }
        ensures shelf { IsShelf self.new.now }
    {
        self.reserve(1)?;
        let file = ShelfFile::of(alloc, bytes)?;
        self.fill(key, file)
    }

    /// Gives a file the bytes of another in place of its own.
    pub fn fill(&mut self, key: u64, file: ShelfFile) -> Result<(), AllocError>
        requires { IsFile self.old.now.tree key }
        ensures ok { OnOk result (self.new.now ≡ refilled self.old.now key file) }
        ensures err { OnErr result (self.new.now ≡ self.old.now) }
        ensures settled { self.new.settled ≡ self.old.settled }
        ensures shelf { IsShelf self.new.now }
    {
        self.files.reserve(1)?;
        self.files.set(key, Some(file));
        Ok(())
    }

    /// Puts a file or a folder at another place, with all that stands below it.
    pub fn move_to(&mut self, key: u64, place: Place) -> Result<(), AllocError>
        requires { LegalMove self.old.now.tree key place }
        ensures ok { OnOk result (self.new.now ≡ moved self.old.now key place) }
        ensures err { OnErr result (self.new.now ≡ self.old.now) }
        ensures settled { self.new.settled ≡ self.old.settled }
        ensures shelf { IsShelf self.new.now }
    {
        let Some(node) = self.tree.tree().get(NodeId(key)) else {
            unreachable!()
        };
        let node = node.moved_to(place);
        self.tree.put(NodeId(key), node)?;
        Ok(())
    }

    /// Says whether a file may be executed.
    pub fn set_bit(&mut self, alloc: Global, key: u64, bit: bool) -> Result<(), AllocError>
        requires { IsFile self.old.now.tree key }
        ensures ok { OnOk result (self.new.now ≡ marked self.old.now key bit) }
        ensures err { OnErr result (self.new.now ≡ self.old.now) }
        ensures settled { self.new.settled ≡ self.old.settled }
        ensures shelf { IsShelf self.new.now }
    {
        let Some(node) = self.tree.tree().get(NodeId(key)) else {
            unreachable!()
        };
        let mut node = node.copy(alloc)?;
        node.bit = bit;
        self.tree.put(NodeId(key), node)?;
        Ok(())
    }

    /// Removes a file, or a folder in which nothing stands. It wants memory only when `spare` is 0.
    pub fn cut(&mut self, key: u64) -> Result<(), AllocError>
        requires { LegalCut self.old.now.tree key }
        ensures ok { OnOk result (self.new.now ≡ without self.old.now key) }
        ensures err { OnErr result (self.new.now ≡ self.old.now) }
        ensures settled { self.new.settled ≡ self.old.settled }
        ensures memory { OnErr result (self.old.spare ≡ 0) }
        ensures spare { self.old.spare ≤ self.new.spare + 1 }
        ensures shelf { IsShelf self.new.now }
    {
        self.files.reserve(1)?;
        self.tree.cut(NodeId(key))?;
        self.files.set(key, None);
        Ok(())
    }

    /// What is on the shelf now is what `back` leads to. It takes no memory.
    pub fn settle(&mut self)
        ensures now { self.new.now ≡ self.old.now }
        ensures settled { self.new.settled ≡ self.old.now }
        ensures shelf { IsShelf self.new.now }
    {
        self.tree.settle();
        self.files.settle();
    }

    /// Takes back all changes since `settle` was last called, or since the shelf was made. It takes no memory.
    pub fn back(&mut self)
        ensures now { self.new.now ≡ self.old.settled }
        ensures settled { self.new.settled ≡ self.old.settled }
        ensures shelf { IsShelf self.new.now }
    {
        self.tree.back();
        self.files.back();
    }
}
