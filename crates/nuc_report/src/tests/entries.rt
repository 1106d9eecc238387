use crate::log_line;
use nuc_base::{Name, NodeId, Path};
use nuc_class::{Op, Verb};
use nuc_folder::{Item, Key, Outcome, RanOp, UserEdit, UserReply};
use nuc_hash::content_of;
use nuc_log::{Event, LogEntry, MarkReply, Reply, StartReply, TakeReply};
use nuc_server::{Refusal, WebEdit, WebReply};
use nuc_step::{DoneReply, Planned, Reason, Scanned, WatchReply};
use sqlite_items::Items;
use std::alloc::Global;
use std::process::Abort;
use std::test::Fail;

const LISTED: &str = "list 1 0 1
item 1 0 file 1 9c2e4d8fe97d881430de4e754b4205b9c27ce96715231cffc4337340cb110280 a
";

fn prints(
    rt: &impl Abort,
    alloc: Global,
    event: Event,
    reply: Reply,
    want: &str,
) -> Result<(), Fail> {
    let text = log_line(alloc, &LogEntry::Stepped { event, reply })?;
    assert!(rt; text.as_str() == want, "{want}");
    Ok(())
}

fn path(alloc: Global, name: &[u8]) -> Result<Path, Fail> {
    let mut names = Items::new(alloc);
    names.push(Name::new(alloc, name)?)?;
    Ok(Path { names })
}

/// An operation of this kind, with these identities.
fn op(alloc: Global, number: u64, verb: Verb, id: u64, other: u64) -> Result<Op, Fail> {
    let mut op = super::outputs::upload(alloc)?;
    op.number = number;
    op.verb = verb;
    op.id = NodeId(id);
    op.other = NodeId(other);
    Ok(op)
}

#[test]
fn an_opening_has_its_line(rt: HostRuntime) -> Result<(), Fail> {
    let alloc = rt.alloc();
    let opened = LogEntry::Opened {
        clients: 2,
        kept: false,
    };
    assert_eq!(rt; log_line(alloc, &opened)?.as_str(), "open 2 fresh\n");
    Ok(())
}

#[test]
fn what_a_user_does_has_its_line(rt: HostRuntime) -> Result<(), Fail> {
    let alloc = rt.alloc();
    let edit = UserEdit::Mkdir(path(alloc, b"a%2")?);
    let event = Event::User { client: 1, edit };
    let reply = Reply::User(UserReply::Ok);
    prints(&rt, alloc, event, reply, "user 1 mkdir /a%252 ok\n")
}

#[test]
fn a_refused_web_edit_has_its_reason(rt: HostRuntime) -> Result<(), Fail> {
    let alloc = rt.alloc();
    let edit = WebEdit::Mkdir(path(alloc, b"d")?);
    let reply = Reply::Web(WebReply::Taken(NodeId(1)));
    let want = "web mkdir /d refused taken 1\n";
    prints(&rt, alloc, Event::Web { edit }, reply, want)
}

#[test]
fn a_listing_has_its_items_below_its_line(rt: HostRuntime) -> Result<(), Fail> {
    let alloc = rt.alloc();
    let mut items = Items::new(alloc);
    items.push(Item {
        key: Key(1),
        parent: Key(0),
        content: Some(content_of(alloc, b"1")?),
        name: Items::from_slice(alloc, b"a")?,
        bit: false,
    })?;
    let reply = Reply::Listed { changes: 0, items };
    prints(&rt, alloc, Event::List { client: 1 }, reply, LISTED)
}

#[test]
fn what_comes_from_the_folder_has_its_line(rt: HostRuntime) -> Result<(), Fail> {
    let alloc = rt.alloc();
    let client = 1;
    let reply = Reply::Scan(Scanned::Stale(1));
    prints(
        &rt,
        alloc,
        Event::Scan { client },
        reply,
        "scan 1 stale 1\n",
    )?;
    let reply = Reply::Watch(WatchReply::Changed(NodeId(1)));
    let want = "watch 1 changed 1\n";
    prints(&rt, alloc, Event::Watch { client }, reply, want)
}

#[test]
fn a_mend_has_its_operation_below_its_line(rt: HostRuntime) -> Result<(), Fail> {
    let alloc = rt.alloc();
    let reply = Reply::Plan(Planned::Mend(op(alloc, 1, Verb::Adopt, 1, 4)?));
    let want = "plan 2 mend\nop 1 adopt 1 4\n";
    prints(&rt, alloc, Event::Plan { client: 2 }, reply, want)
}

#[test]
fn an_operation_that_fails_has_its_lines(rt: HostRuntime) -> Result<(), Fail> {
    let alloc = rt.alloc();
    let (client, number) = (1, 1);
    let event = Event::Start { client, number };
    let reply = Reply::Started(StartReply::Changed);
    prints(&rt, alloc, event, reply, "start 1 1 changed\n")?;
    let event = Event::Take { client, number };
    let reply = Reply::Took(TakeReply::Folder(RanOp {
        outcome: Outcome::Failed,
        made: 0,
    }));
    prints(&rt, alloc, event, reply, "take 1 1 failed 0\n")
}

#[test]
fn a_refused_commit_has_its_lines(rt: HostRuntime) -> Result<(), Fail> {
    let alloc = rt.alloc();
    let (client, number) = (1, 1);
    let refusal = Refusal::Taken(NodeId(2));
    let event = Event::Take { client, number };
    let reply = Reply::Took(TakeReply::Refused(refusal));
    prints(&rt, alloc, event, reply, "take 1 1 refused taken 2\n")?;
    let event = Event::Done { client, number };
    let reply = Reply::Done(DoneReply::Dropped(Reason::Server(refusal)));
    prints(&rt, alloc, event, reply, "done 1 1 dropped taken\n")
}

#[test]
fn a_restart_has_no_answer(rt: HostRuntime) -> Result<(), Fail> {
    let alloc = rt.alloc();
    let client = 1;
    let event = Event::Restart { client };
    prints(&rt, alloc, event, Reply::Restarted, "restart 1\n")?;
    let reply = Reply::Marked(MarkReply::Stalled(1));
    prints(
        &rt,
        alloc,
        Event::Mark { client },
        reply,
        "sync 1 stalled 1\n",
    )
}
