use crate::{Stop, World};
use nuc_base::{Name, Path};
use nuc_folder::{UserEdit, UserReply};
use nuc_hash::Filling;
use nuc_log::{Event, LogEntry, MarkReply, Reply, StartReply, TakeReply};
use nuc_step::{DoneReply, Planned, Scanned};
use nuc_tree::Tree;
use sqlite_items::Items;
use std::alloc::Global;
use std::process::Abort;
use std::test::Fail;

/// The user writes one byte into `/f0`.
fn write(alloc: Global) -> Result<Event, Fail> {
    let mut names = Items::new(alloc);
    names.push(Name::new(alloc, b"f0")?)?;
    let bytes = Items::from_slice(alloc, b"0")?;
    let edit = UserEdit::Write(Path { names }, Filling::Given(bytes));
    Ok(Event::User { client: 1, edit })
}

fn step(rt: &impl Abort, alloc: Global, world: &mut World<Tree>, event: Event) {
    assert!(rt; world.step(alloc, event).is_ok());
}

fn answer(world: &World<Tree>) -> Option<&Reply> {
    match world.log().entries().last() {
        Some(LogEntry::Stepped { reply, .. }) => Some(reply),
        _ => None,
    }
}

fn observe(rt: &impl Abort, alloc: Global, world: &mut World<Tree>) {
    step(rt, alloc, world, Event::List { client: 1 });
    assert!(rt;
        matches!(answer(world), Some(Reply::Listed { changes: 0, items }) if items.len() == 1)
    );
    step(rt, alloc, world, Event::Scan { client: 1 });
    assert!(rt; matches!(answer(world), Some(Reply::Scan(Scanned::Changed(1)))));
}

fn plan(rt: &impl Abort, alloc: Global, world: &mut World<Tree>) {
    let client = 1;
    step(rt, alloc, world, Event::Pull { client });
    assert!(rt;
        matches!(
            answer(world),
            Some(Reply::Pulled {
                entries: 0,
                cursor: 0
            })
        )
    );
    step(rt, alloc, world, Event::Plan { client });
    assert!(rt; matches!(answer(world), Some(Reply::Plan(Planned::Batch(ops))) if ops.len() == 1));
}

fn carry_out(rt: &impl Abort, alloc: Global, world: &mut World<Tree>) {
    let (client, number) = (1, 1);
    step(rt, alloc, world, Event::Start { client, number });
    assert!(rt;
        matches!(
            answer(world),
            Some(Reply::Started(StartReply::Ok { bytes: Some(_) }))
        )
    );
    step(rt, alloc, world, Event::Take { client, number });
    assert!(rt; matches!(answer(world), Some(Reply::Took(TakeReply::Accepted(1)))));
}

fn end(rt: &impl Abort, alloc: Global, world: &mut World<Tree>) {
    let (client, number) = (1, 1);
    step(rt, alloc, world, Event::Done { client, number });
    assert!(rt; matches!(answer(world), Some(Reply::Done(DoneReply::Applied))));
    step(rt, alloc, world, Event::Mark { client });
    assert!(rt; matches!(answer(world), Some(Reply::Marked(MarkReply::Quiet))));
}

#[test]
fn a_file_reaches_the_server(rt: HostRuntime) -> Result<(), Fail> {
    let alloc = rt.alloc();
    let mut world = World::empty(alloc, 1)?;
    step(&rt, alloc, &mut world, write(alloc)?);
    assert!(&rt; matches!(answer(&world), Some(Reply::User(UserReply::Ok))));
    observe(&rt, alloc, &mut world);
    plan(&rt, alloc, &mut world);
    carry_out(&rt, alloc, &mut world);
    end(&rt, alloc, &mut world);
    Ok(())
}

#[test]
fn a_client_of_another_number_takes_no_step(rt: HostRuntime) -> Result<(), Fail> {
    let mut world: World<Tree> = World::empty(rt.alloc(), 1)?;
    for client in [0, 2] {
        let stop = world.step(rt.alloc(), Event::Plan { client });
        assert!(&rt; stop == Err(Stop::NoClient));
        assert!(&rt; world.member(client).is_none());
    }
    assert!(&rt; world.log().entries().len() == 1);
    Ok(())
}

#[test]
fn a_failed_listing_is_no_entry(rt: HostRuntime) -> Result<(), Fail> {
    let alloc = rt.alloc();
    let mut world: World<Tree> = World::empty(alloc, 1)?;
    assert!(&rt; world.fail_at(1, 1).is_ok());
    assert!(&rt; world.step(alloc, Event::List { client: 1 }) == Err(Stop::FolderFault));
    assert!(&rt; world.log().entries().len() == 1);
    step(&rt, alloc, &mut world, Event::List { client: 1 });
    assert!(&rt; world.log().entries().len() == 2);
    Ok(())
}
