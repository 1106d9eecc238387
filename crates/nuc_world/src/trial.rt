//! A world of one client, with its steps, trees and files as values, for tests.
use crate::{Stop, World};
use nuc_base::{Kind, Name, Node, NodeId, Path, TreeLike};
use nuc_class::{Op, Verb};
use nuc_edits::{Edit as Recorded, EditKind};
use nuc_folder::{Item, UserEdit, UserReply};
use nuc_hash::{Content, Filling};
use nuc_log::{Event, LogEntry, MarkReply, Member, Reply, TakeReply};
use nuc_server::{WebEdit, WebReply};
use nuc_step::{DoneReply, Planned, Scanned, WatchReply};
use nuc_tree::Tree;
use sqlite_items::Items;
use std::alloc::Global;
use std::process::Abort;

/// What a file holds, with the hash of its content from Python's hashlib.
#[derive(Clone, Copy)]
pub(crate) struct Text {
    bytes: &'static [u8],
    hash: [u8; 32],
}

pub(crate) const ONE: Text = Text {
    bytes: b"one",
    hash: [
        0xfe, 0x8d, 0x7a, 0x87, 0x3d, 0xc4, 0x89, 0x61, 0xa6, 0xaf, 0x33, 0x4c, 0x99, 0x6b, 0x2c,
        0xb3, 0xce, 0x37, 0x14, 0x9d, 0x5c, 0xe9, 0xc9, 0x25, 0x39, 0x52, 0xa5, 0x4c, 0x6a, 0x92,
        0xc1, 0xad,
    ],
};

pub(crate) const TWO: Text = Text {
    bytes: b"two",
    hash: [
        0x31, 0x3d, 0xb6, 0x3e, 0x02, 0x83, 0xab, 0x2a, 0x9b, 0xc7, 0x2e, 0x9a, 0x0a, 0xc7, 0x49,
        0xda, 0x1d, 0x3a, 0xcf, 0x70, 0x8f, 0xcd, 0x1a, 0x78, 0x48, 0x76, 0x72, 0x44, 0xdd, 0x2f,
        0x17, 0xe8,
    ],
};

pub(crate) const THREE: Text = Text {
    bytes: b"three",
    hash: [
        0x1d, 0xbf, 0xa8, 0x4f, 0xaa, 0x92, 0x6d, 0x00, 0xa2, 0x7e, 0x75, 0x78, 0x74, 0x6a, 0x13,
        0xad, 0x30, 0x63, 0xe0, 0xe9, 0xbd, 0xe3, 0xb2, 0x50, 0x15, 0xe5, 0x45, 0xad, 0x80, 0xf5,
        0xf7, 0x03,
    ],
};

/// The names of a path.
pub(crate) type Names = &'static [&'static str];

/// An edit of the user in the folder, or on the web.
#[derive(Clone, Copy)]
pub(crate) enum Edit {
    Mkdir(Names),
    Write(Names, Text),
    Move(Names, Names),
    Remove(Names),
    Bit(Names, bool),
}

/// What stands in a tree: an identity, its parent, its name, and its version, 0 of a folder.
pub(crate) type Row = (u64, u64, &'static str, u64);

/// What is in the folder: a key, that of its parent, its name, and what a file holds.
pub(crate) type Line = (u64, u64, &'static str, Option<Text>);

/// A recorded edit: its version, the identity, the version before, and what was put; nothing where the file was deleted.
pub(crate) type Record = (u64, u64, u64, Option<Text>);

/// An operation: its number, its verb, its identity and the second one.
pub(crate) type Brief = (u64, Verb, u64, u64);

/// What a plan answers.
#[derive(Clone, Copy)]
pub(crate) enum Plan {
    Empty,
    Booked(Brief),
    Batch(&'static [Brief]),
    Mend(Brief),
    Busy(u64),
}

/// These names as a path; a word that is no name ends the test.
fn path(rt: &impl Abort, alloc: Global, names: &[&str]) -> Path {
    let mut path = Items::new(alloc);
    for part in names {
        let Ok(name) = Name::new(alloc, part.as_bytes()) else {
            panic!(rt; "no name, or no memory")
        };
        let Ok(()) = path.push(name) else {
            panic!(rt; "out of memory")
        };
    }
    Path { names: path }
}

/// The bytes as an edit gives them.
fn filling(rt: &impl Abort, alloc: Global, text: Text) -> Filling {
    match Items::from_slice(alloc, text.bytes) {
        Ok(bytes) => Filling::Given(bytes),
        Err(_) => panic!(rt; "out of memory"),
    }
}

/// The edit as a user makes it in the folder.
fn user_edit(rt: &impl Abort, alloc: Global, edit: Edit) -> UserEdit {
    match edit {
        Edit::Mkdir(names) => UserEdit::Mkdir(path(rt, alloc, names)),
        Edit::Write(names, text) => {
            UserEdit::Write(path(rt, alloc, names), filling(rt, alloc, text))
        }
        Edit::Move(from, to) => UserEdit::Move(path(rt, alloc, from), path(rt, alloc, to)),
        Edit::Remove(names) => UserEdit::Remove(path(rt, alloc, names)),
        Edit::Bit(names, bit) => UserEdit::Bit(path(rt, alloc, names), bit),
    }
}

/// The edit as it is made on the web.
fn web_edit(rt: &impl Abort, alloc: Global, edit: Edit) -> WebEdit {
    match edit {
        Edit::Mkdir(names) => WebEdit::Mkdir(path(rt, alloc, names)),
        Edit::Write(names, text) => {
            WebEdit::Write(path(rt, alloc, names), filling(rt, alloc, text))
        }
        Edit::Move(from, to) => WebEdit::Move(path(rt, alloc, from), path(rt, alloc, to)),
        Edit::Remove(names) => WebEdit::Remove(path(rt, alloc, names)),
        Edit::Bit(names, bit) => WebEdit::Bit(path(rt, alloc, names), bit),
    }
}

/// Whether a version fits the kind: 0 of a folder alone.
fn is_kind(kind: Kind, ver: u64) -> bool {
    match kind {
        Kind::Folder => ver == 0,
        Kind::File => ver > 0,
    }
}

/// Whether the node has this row's parent, name and version, and the kind that goes with the version.
fn is_node(node: &Node, row: Row) -> bool {
    let (_, parent, name, ver) = row;
    node.place.parent.0 == parent
        && node.place.name.bytes() == name.as_bytes()
        && node.ver.0 == ver
        && is_kind(node.kind, ver)
}

/// Whether the row's identity stands in the tree, with this node.
fn has_row<T: TreeLike>(tree: &T, row: Row) -> bool {
    match tree.get(NodeId(row.0)) {
        Some(node) => is_node(node, row),
        None => false,
    }
}

/// Whether these rows, and nothing else, stand in the tree.
fn are_rows<T: TreeLike>(tree: &T, rows: &[Row]) -> bool {
    if tree.len() != rows.len() as u64 {
        return false;
    }
    for row in rows {
        if !has_row(tree, *row) {
            return false;
        }
    }
    true
}

/// Whether the content has the hash and the size of this text.
fn is_content(content: &Content, text: Text) -> bool {
    content.hash().0 == text.hash && content.size() == text.bytes.len() as u64
}

/// Whether both are there and agree, or neither is, as of a folder.
fn has_content(content: &Option<Content>, text: Option<Text>) -> bool {
    match (content, text) {
        (Some(content), Some(text)) => is_content(content, text),
        (None, None) => true,
        (Some(_), None) | (None, Some(_)) => false,
    }
}

/// Whether an item of the listing says what this line says.
fn is_line(item: &Item, line: Line) -> bool {
    let (key, parent, name, text) = line;
    item.key.0 == key
        && item.parent.0 == parent
        && item.name.as_slice() == name.as_bytes()
        && has_content(&item.content, text)
}

/// Whether the items are just these lines, in this order.
fn are_lines(items: &[Item], lines: &[Line]) -> bool {
    if items.len() != lines.len() {
        return false;
    }
    for (item, line) in items.iter().zip(lines) {
        if !is_line(item, *line) {
            return false;
        }
    }
    true
}

/// Whether an edit put this text, or deleted where there is none.
fn did(what: &EditKind, text: Option<Text>) -> bool {
    match (what, text) {
        (EditKind::Put(content), Some(text)) => is_content(content, text),
        (EditKind::Deleted, None) => true,
        _ => false,
    }
}

/// Whether a recorded edit is this one.
fn is_record(edit: &Recorded, record: Record) -> bool {
    let (ver, id, base, text) = record;
    edit.ver.0 == ver && edit.id.0 == id && edit.base.0 == base && did(&edit.what, text)
}

/// Whether the operation is the one that is told in brief.
fn is_brief(op: &Op, brief: Brief) -> bool {
    let (number, verb, id, other) = brief;
    op.number == number && op.verb == verb && op.id.0 == id && op.other.0 == other
}

/// Whether the operations are just these, in this order.
fn are_briefs(ops: &[Op], briefs: &[Brief]) -> bool {
    if ops.len() != briefs.len() {
        return false;
    }
    for (op, brief) in ops.iter().zip(briefs) {
        if !is_brief(op, *brief) {
            return false;
        }
    }
    true
}

/// Whether the client planned just this.
fn is_plan(planned: &Planned, plan: Plan) -> bool {
    match (planned, plan) {
        (Planned::Empty, Plan::Empty) => true,
        (Planned::Booked(op), Plan::Booked(brief)) => is_brief(op, brief),
        (Planned::Batch(ops), Plan::Batch(briefs)) => are_briefs(ops.as_slice(), briefs),
        (Planned::Mend(op), Plan::Mend(brief)) => is_brief(op, brief),
        (Planned::Busy(count), Plan::Busy(so_many)) => *count == so_many,
        _ => false,
    }
}

/// A world of one client. A step that isn't taken, for want of memory, ends the test, unless a method says otherwise.
#[derive(Drop)]
pub(crate) struct Trial {
    alloc: Global,
    world: World<Tree>,
}

impl Trial {
    /// Server, client and folder hold nothing.
    pub(crate) fn new(rt: &impl Abort, alloc: Global) -> Trial {
        match World::empty(alloc, 1) {
            Ok(world) => Trial { alloc, world },
            Err(_) => panic!(rt; "out of memory"),
        }
    }

    /// The client's user has written the file `f`, and it has come to the server as revision 1: identity 1, version 1.
    pub(crate) fn with_file(rt: &impl Abort, alloc: Global) -> Trial {
        let mut trial = Trial::new(rt, alloc);
        trial.user(rt, Edit::Write(&["f"], ONE));
        trial.observe(rt);
        trial.pull(rt);
        trial.plan(rt);
        trial.carry_out(rt, 1);
        trial
    }

    /// The world takes the event. That it isn't taken ends the test.
    fn step(&mut self, rt: &impl Abort, event: Event) {
        assert!(rt; self.world.step(self.alloc, event).is_ok());
    }

    /// How the last event was answered.
    fn reply(&self) -> Option<&Reply> {
        match self.world.log().entries().last() {
            Some(LogEntry::Stepped { reply, .. }) => Some(reply),
            _ => None,
        }
    }

    /// What the client's user is answered to this edit in the folder.
    pub(crate) fn user(&mut self, rt: &impl Abort, edit: Edit) -> Option<UserReply> {
        let edit = user_edit(rt, self.alloc, edit);
        self.step(rt, Event::User { client: 1, edit });
        match self.reply() {
            Some(Reply::User(reply)) => Some(*reply),
            _ => None,
        }
    }

    /// What this edit is answered on the web.
    pub(crate) fn web(&mut self, rt: &impl Abort, edit: Edit) -> Option<WebReply> {
        let edit = web_edit(rt, self.alloc, edit);
        self.step(rt, Event::Web { edit });
        match self.reply() {
            Some(Reply::Web(reply)) => Some(*reply),
            _ => None,
        }
    }

    /// How often Local had changed when the listing was made, and how many items it has.
    pub(crate) fn list(&mut self, rt: &impl Abort) -> Option<(u64, usize)> {
        self.step(rt, Event::List { client: 1 });
        match self.reply() {
            Some(Reply::Listed { changes, items }) => Some((*changes, items.len())),
            _ => None,
        }
    }

    /// Why the folder isn't listed. Its next call fails.
    pub(crate) fn list_in_vain(&mut self, rt: &impl Abort) -> Option<Stop> {
        assert!(rt; self.world.fail_at(1, 1).is_ok());
        match self.world.step(self.alloc, Event::List { client: 1 }) {
            Ok(()) => None,
            Err(stop) => Some(stop),
        }
    }

    /// What comes of the listing that is held.
    pub(crate) fn scan(&mut self, rt: &impl Abort) -> Option<Scanned> {
        self.step(rt, Event::Scan { client: 1 });
        match self.reply() {
            Some(Reply::Scan(scanned)) => Some(*scanned),
            _ => None,
        }
    }

    /// The folder is listed and scanned.
    pub(crate) fn observe(&mut self, rt: &impl Abort) -> Option<Scanned> {
        self.list(rt);
        self.scan(rt)
    }

    /// What comes of the oldest change that is pending.
    pub(crate) fn watch(&mut self, rt: &impl Abort) -> Option<WatchReply> {
        self.step(rt, Event::Watch { client: 1 });
        match self.reply() {
            Some(Reply::Watch(reply)) => Some(*reply),
            _ => None,
        }
    }

    /// Whether the client is answered that nothing is pending.
    pub(crate) fn watches_in_vain(&mut self, rt: &impl Abort) -> bool {
        self.step(rt, Event::Watch { client: 1 });
        matches!(self.reply(), Some(Reply::Nothing))
    }

    /// How many entries were taken, and the cursor after them.
    pub(crate) fn pull(&mut self, rt: &impl Abort) -> Option<(u64, u64)> {
        self.step(rt, Event::Pull { client: 1 });
        match self.reply() {
            Some(Reply::Pulled { entries, cursor }) => Some((*entries, *cursor)),
            _ => None,
        }
    }

    /// The client plans; the plan isn't looked at.
    fn plan(&mut self, rt: &impl Abort) {
        self.step(rt, Event::Plan { client: 1 });
    }

    /// The client plans; whether that is the plan.
    pub(crate) fn plans(&mut self, rt: &impl Abort, plan: Plan) -> bool {
        self.plan(rt);
        match self.reply() {
            Some(Reply::Plan(planned)) => is_plan(planned, plan),
            _ => false,
        }
    }

    /// The operation of this number begins; how that is answered isn't looked at.
    fn start(&mut self, rt: &impl Abort, number: u64) {
        self.step(rt, Event::Start { client: 1, number });
    }

    /// How the operation's outside change was taken: as a commit, or by calls of the folder.
    fn take(&mut self, rt: &impl Abort, number: u64) -> Option<TakeReply> {
        self.step(rt, Event::Take { client: 1, number });
        match self.reply() {
            Some(Reply::Took(reply)) => Some(*reply),
            _ => None,
        }
    }

    /// How the operation of this number ended.
    fn done(&mut self, rt: &impl Abort, number: u64) -> Option<DoneReply> {
        self.step(rt, Event::Done { client: 1, number });
        match self.reply() {
            Some(Reply::Done(reply)) => Some(*reply),
            _ => None,
        }
    }

    /// The operation of this number begins, is taken and ends; how it was taken. It sees that it is applied.
    pub(crate) fn carry_out(&mut self, rt: &impl Abort, number: u64) -> Option<TakeReply> {
        self.start(rt, number);
        let took = self.take(rt, number);
        assert!(rt; self.done(rt, number) == Some(DoneReply::Applied));
        took
    }

    /// The client forgets what is in flight.
    pub(crate) fn restart(&mut self, rt: &impl Abort) {
        self.step(rt, Event::Restart { client: 1 });
    }

    /// Whether the client has come to rest, as the mark says.
    pub(crate) fn mark(&mut self, rt: &impl Abort) -> Option<MarkReply> {
        self.step(rt, Event::Mark { client: 1 });
        match self.reply() {
            Some(Reply::Marked(reply)) => Some(*reply),
            _ => None,
        }
    }

    /// The client, with its folder.
    fn member(&self, rt: &impl Abort) -> &Member<Tree> {
        match self.world.member(1) {
            Some(member) => member,
            None => panic!(rt; "no client"),
        }
    }

    /// How many steps the log has, the opening among them.
    pub(crate) fn steps(&self) -> usize {
        self.world.log().entries().len()
    }

    /// How often Local has changed.
    pub(crate) fn changes(&self, rt: &impl Abort) -> u64 {
        self.member(rt).client.changes()
    }

    /// Whether Local is just this.
    pub(crate) fn has_local(&self, rt: &impl Abort, rows: &[Row]) -> bool {
        are_rows(self.member(rt).client.local(), rows)
    }

    /// Whether the server's last tree is just this.
    pub(crate) fn has_server(&self, rows: &[Row]) -> bool {
        are_rows(self.world.view().server.tree(), rows)
    }

    /// Whether the file of this identity may be executed, as Local has it.
    pub(crate) fn has_bit(&self, rt: &impl Abort, id: u64) -> bool {
        match self.member(rt).client.local().get(NodeId(id)) {
            Some(node) => node.bit,
            None => false,
        }
    }

    /// Whether the folder holds just this, in the order of its listing.
    pub(crate) fn has_folder(&self, rt: &impl Abort, lines: &[Line]) -> bool {
        match self.member(rt).folder.items(self.alloc) {
            Ok(items) => are_lines(items.as_slice(), lines),
            Err(_) => panic!(rt; "out of memory"),
        }
    }

    /// How many edits are recorded.
    pub(crate) fn edits(&self) -> u64 {
        self.world.view().edits.len()
    }

    /// Whether that many edits are recorded, and this is the last of them.
    pub(crate) fn has_last_edit(&self, count: u64, record: Record) -> bool {
        let edits = self.world.view().edits;
        let last = count.saturating_sub(1);
        match edits.entry(last) {
            Some(edit) => edits.len() == count && is_record(edit, record),
            None => false,
        }
    }

    /// Whether one version alone was adopted, into this one.
    pub(crate) fn has_adopted(&self, old: u64, into: u64) -> bool {
        let edits = self.world.view().edits;
        match edits.adoption(0) {
            Some(adoption) => {
                edits.adoption_count() == 1 && adoption.old.0 == old && adoption.into.0 == into
            }
            None => false,
        }
    }
}
