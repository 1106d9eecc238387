//! What a user does in a folder of a trial, and what is told of it, as values for tests.
use crate::mem_trial::{Row, Spot, Text, Trial, is_content, is_row, name};
use crate::{KeyPlace, Noticed, UserEdit, UserReply};
use nuc_base::Path;
use nuc_hash::Filling;
use sqlite_items::Items;
use std::alloc::Global;
use std::process::Abort;

/// The names of a path.
pub(crate) type Names = &'static [&'static str];

/// What a user does.
#[derive(Clone, Copy)]
pub(crate) enum Edit {
    Mkdir(Names),
    Write(Names, Text),
    Move(Names, Names),
    Remove(Names),
    Bit(Names, bool),
}

/// What is told of it.
#[derive(Clone, Copy)]
pub(crate) enum Notice {
    Made(Row),
    Written(u64, Text),
    Moved(u64, Spot),
    Removed(u64),
    Bit(u64, bool),
}

fn path(rt: &impl Abort, alloc: Global, names: &[&str]) -> Path {
    let mut path = Items::new(alloc);
    for part in names {
        let Ok(()) = path.push(name(rt, alloc, part.as_bytes())) else {
            panic!(rt; "out of memory")
        };
    }
    Path { names: path }
}

fn filling(rt: &impl Abort, alloc: Global, text: Text) -> Filling {
    match Items::from_slice(alloc, text.bytes) {
        Ok(bytes) => Filling::Given(bytes),
        Err(_) => panic!(rt; "out of memory"),
    }
}

fn user_edit(rt: &impl Abort, alloc: Global, edit: Edit) -> UserEdit {
    match edit {
        Edit::Mkdir(names) => UserEdit::Mkdir(path(rt, alloc, names)),
        Edit::Write(names, text) => {
            UserEdit::Write(path(rt, alloc, names), filling(rt, alloc, text))
        }
        Edit::Move(from, to) => UserEdit::Move(path(rt, alloc, from), path(rt, alloc, to)),
        Edit::Remove(names) => UserEdit::Remove(path(rt, alloc, names)),
        Edit::Bit(names, bit) => UserEdit::Bit(path(rt, alloc, names), bit),
    }
}

fn is_spot(place: &KeyPlace, spot: Spot) -> bool {
    let (parent, name) = spot;
    place.parent.0 == parent && place.name.bytes() == name
}

fn tells(noticed: &Noticed, notice: Notice) -> bool {
    match (noticed, notice) {
        (Noticed::Made(item), Notice::Made(row)) => is_row(item, row),
        (Noticed::Written(key, content), Notice::Written(want, text)) => {
            key.0 == want && is_content(content, text)
        }
        (Noticed::Moved(key, place), Notice::Moved(want, spot)) => {
            key.0 == want && is_spot(place, spot)
        }
        (Noticed::Removed(key), Notice::Removed(want)) => key.0 == want,
        (Noticed::Bit(key, bit), Notice::Bit(want, to)) => key.0 == want && *bit == to,
        _ => false,
    }
}

impl Trial {
    pub(crate) fn user(&mut self, rt: &impl Abort, edit: Edit) -> UserReply {
        let edit = user_edit(rt, self.alloc, edit);
        self.folder.user(self.alloc, &edit)
    }

    fn pending(&mut self, rt: &impl Abort) -> Option<Noticed> {
        match self.folder.pending(self.alloc) {
            Ok(noticed) => noticed,
            Err(_) => panic!(rt; "out of memory"),
        }
    }

    /// Sees that just these are pending, the oldest first, and takes them.
    pub(crate) fn tells(&mut self, rt: &impl Abort, notices: &[Notice]) {
        for (i, notice) in notices.iter().enumerate() {
            match self.pending(rt) {
                Some(noticed) => assert!(rt; tells(&noticed, *notice), "notice {i}"),
                None => panic!(rt; "nothing is pending"),
            }
        }
        assert!(rt; self.pending(rt).is_none());
    }
}
