ghost use Rattle.std.specs.Prelude.{IfOk};
ghost use Rattle.nuc_base.specs.Kinds.{FitsKind};

use crate::{report, summary};
use nuc_base::{Kind, Name, Node, NodeId, Place, Ver};
use nuc_class::Op;
use nuc_edits::Edits;
use nuc_log::{Event, Log, LogEntry, Member, Reply, View};
use nuc_server::LoopServer;
use nuc_step::Planned;
use nuc_tree::Tree;
use std::alloc::Global;
use std::test::Fail;

fn file(alloc: Global) -> Result<Node, Fail>
    ensures { IfOk result FitsKind }
{
    Ok(Node {
        place: Place {
            parent: NodeId(0),
            name: Name::new(alloc, b"a")?,
        },
        kind: Kind::File,
        ver: Ver(1),
        bit: false,
    })
}

pub(crate) fn upload(alloc: Global) -> Result<Op, Fail> {
    Ok(Op::new_file(alloc, NodeId(1), &file(alloc)?)?)
}

#[test]
fn a_report_of_nothing_has_its_head(rt: HostRuntime) -> Result<(), Fail> {
    let alloc = rt.alloc();
    let server = LoopServer::new(alloc);
    let edits = Edits::new(alloc);
    let members: &[Member<Tree>] = &[];
    let view = View {
        server: &server,
        edits: &edits,
        members,
    };
    let text = report(alloc, &view)?;
    assert_eq!(rt; text.as_str(), "report\nserver 0\n");
    Ok(())
}

#[test]
fn a_summary_counts_what_was_planned(rt: HostRuntime) -> Result<(), Fail> {
    let alloc = rt.alloc();
    let mut log = Log::new(alloc);
    for reply in [
        Reply::Plan(Planned::Booked(upload(alloc)?)),
        Reply::Plan(Planned::Mend(upload(alloc)?)),
        Reply::Plan(Planned::Empty),
    ] {
        let event = Event::Plan { client: 1 };
        log.push(LogEntry::Stepped { event, reply })?;
    }
    assert_eq!(rt; summary(alloc, &log)?.as_str(), "summary 3 0 1 1 0\n");
    Ok(())
}
