//! A folder in memory, its calls as values, and what it is seen to hold, for tests.
use crate::{Folder, Item, Key, KeyPlace, Listed, MemFolder, Outcome, ReadBack, Seen};
use nuc_base::Name;
use nuc_hash::{Content, Digest};
use std::alloc::Global;
use std::process::Abort;

/// What a file holds, with the hash of its content from Python's hashlib.
#[derive(Clone, Copy)]
pub(crate) struct Text {
    pub(crate) bytes: &'static [u8],
    hash: [u8; 32],
}

pub(crate) const ONE: Text = Text {
    bytes: b"one",
    hash: [
        0xfe, 0x8d, 0x7a, 0x87, 0x3d, 0xc4, 0x89, 0x61, 0xa6, 0xaf, 0x33, 0x4c, 0x99, 0x6b, 0x2c,
        0xb3, 0xce, 0x37, 0x14, 0x9d, 0x5c, 0xe9, 0xc9, 0x25, 0x39, 0x52, 0xa5, 0x4c, 0x6a, 0x92,
        0xc1, 0xad,
    ],
};

pub(crate) const HELLO: Text = Text {
    bytes: b"hello",
    hash: [
        0x95, 0x95, 0xc9, 0xdf, 0x90, 0x07, 0x51, 0x48, 0xeb, 0x06, 0x86, 0x03, 0x65, 0xdf, 0x33,
        0x58, 0x4b, 0x75, 0xbf, 0xf7, 0x82, 0xa5, 0x10, 0xc6, 0xcd, 0x48, 0x83, 0xa4, 0x19, 0x83,
        0x3d, 0x50,
    ],
};

/// The key of a folder, and a name in it.
pub(crate) type Spot = (u64, &'static [u8]);

/// A line of a listing: a key, where it stands, what a file holds, and the bit.
pub(crate) type Row = (u64, Spot, Option<Text>, bool);

/// A call that is to change a folder.
#[derive(Clone, Copy)]
pub(crate) enum Call {
    MakeDir(Spot),
    WriteNew(Spot, Text, bool),
    /// Of the key, from the first text to the second.
    Replace(u64, Text, Text),
    SetBit(u64, bool, bool),
    MoveTo(u64, Spot, Spot),
    Remove(u64, Spot, Option<Text>),
}

pub(crate) fn name(rt: &impl Abort, alloc: Global, bytes: &[u8]) -> Name {
    match Name::new(alloc, bytes) {
        Ok(name) => name,
        Err(_) => panic!(rt; "no name, or no memory"),
    }
}

fn place(rt: &impl Abort, alloc: Global, spot: Spot) -> KeyPlace {
    let (parent, bytes) = spot;
    KeyPlace {
        parent: Key(parent),
        name: name(rt, alloc, bytes),
    }
}

fn seen(rt: &impl Abort, alloc: Global, spot: Spot, text: Option<Text>) -> Seen {
    Seen {
        place: place(rt, alloc, spot),
        hash: match text {
            Some(text) => Some(Digest(text.hash)),
            None => None,
        },
    }
}

pub(crate) fn is_content(content: &Content, text: Text) -> bool {
    content.hash().0 == text.hash && content.size() == text.bytes.len() as u64
}

fn has_content(content: &Option<Content>, text: Option<Text>) -> bool {
    match (content, text) {
        (Some(content), Some(text)) => is_content(content, text),
        (None, None) => true,
        (Some(_), None) | (None, Some(_)) => false,
    }
}

pub(crate) fn is_row(item: &Item, row: Row) -> bool {
    let (key, (parent, name), text, bit) = row;
    item.key.0 == key
        && item.parent.0 == parent
        && item.name.as_slice() == name
        && has_content(&item.content, text)
        && item.bit == bit
}

fn are_rows(rt: &impl Abort, items: &[Item], rows: &[Row]) {
    assert_eq!(rt; items.len(), rows.len());
    for (item, row) in items.iter().zip(rows) {
        assert!(rt; is_row(item, *row), "line of key {}", item.key.0);
    }
}

/// A folder in memory.
#[derive(Drop)]
pub(crate) struct Trial {
    pub(crate) alloc: Global,
    pub(crate) folder: MemFolder,
}

impl Trial {
    pub(crate) fn new(alloc: Global) -> Trial {
        Trial {
            alloc,
            folder: MemFolder::new(alloc),
        }
    }

    pub(crate) fn call(&mut self, rt: &impl Abort, call: Call) -> Outcome {
        match call {
            Call::MakeDir(spot) => self.make_dir(rt, spot),
            Call::WriteNew(spot, text, bit) => self.write_new(rt, spot, text, bit),
            Call::Replace(key, from, to) => self.replace(key, from, to),
            Call::SetBit(key, from, to) => self.folder.set_bit(self.alloc, Key(key), from, to),
            Call::MoveTo(key, from, to) => self.move_to(rt, key, from, to),
            Call::Remove(key, spot, text) => self.remove(rt, key, spot, text),
        }
    }

    fn make_dir(&mut self, rt: &impl Abort, spot: Spot) -> Outcome {
        let place = place(rt, self.alloc, spot);
        self.folder.make_dir(self.alloc, &place)
    }

    fn write_new(&mut self, rt: &impl Abort, spot: Spot, text: Text, bit: bool) -> Outcome {
        let place = place(rt, self.alloc, spot);
        self.folder.write_new(self.alloc, &place, text.bytes, bit)
    }

    fn replace(&mut self, key: u64, from: Text, to: Text) -> Outcome {
        self.folder
            .replace(self.alloc, Key(key), &Digest(from.hash), to.bytes)
    }

    fn move_to(&mut self, rt: &impl Abort, key: u64, from: Spot, to: Spot) -> Outcome {
        let from = place(rt, self.alloc, from);
        let to = place(rt, self.alloc, to);
        self.folder.move_to(self.alloc, Key(key), &from, &to)
    }

    fn remove(&mut self, rt: &impl Abort, key: u64, spot: Spot, text: Option<Text>) -> Outcome {
        let seen = seen(rt, self.alloc, spot, text);
        self.folder.remove(self.alloc, Key(key), &seen)
    }

    pub(crate) fn list(&mut self) -> Listed {
        self.folder.list(self.alloc)
    }

    pub(crate) fn read(&mut self, key: u64) -> ReadBack {
        self.folder.read(self.alloc, Key(key))
    }

    /// Sees that the folder lists just these.
    pub(crate) fn lists(&mut self, rt: &impl Abort, rows: &[Row]) {
        match self.list() {
            Listed::Items(items) => are_rows(rt, items.as_slice(), rows),
            Listed::Failed | Listed::TooLong(_) | Listed::Memory => panic!(rt; "no listing"),
        }
    }

    /// Sees that the folder holds just these, with no call of the trait.
    pub(crate) fn holds(&self, rt: &impl Abort, rows: &[Row]) {
        match self.folder.items(self.alloc) {
            Ok(items) => are_rows(rt, items.as_slice(), rows),
            Err(_) => panic!(rt; "out of memory"),
        }
    }

    pub(crate) fn fail_at(&mut self, rt: &impl Abort, k: u64) {
        assert!(rt; k > 0);
        assert!(rt; self.folder.fail_at(k).is_ok());
    }

    pub(crate) fn settle(&mut self) {
        self.folder.settle();
    }

    pub(crate) fn back(&mut self) {
        self.folder.back();
    }
}
