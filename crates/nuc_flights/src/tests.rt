use crate::{Flights, Taken};
use nuc_base::{Kind, Name, Node, NodeId, Place, Ver};
use nuc_class::Op;
use nuc_folder::Outcome;
use std::alloc::Global;
use std::test::Fail;

/// The upload of a file, under this number.
fn upload(alloc: Global, number: u64) -> Result<Op, Fail> {
    let place = Place {
        parent: NodeId(0),
        name: Name::new(alloc, b"a")?,
    };
    let node = Node {
        place,
        kind: Kind::File,
        ver: Ver(1),
        bit: false,
    };
    let mut op = Op::new_file(alloc, NodeId(number), &node)?;
    op.number = number;
    Ok(op)
}

/// Puts a batch of uploads in flight, under these numbers.
fn fly(alloc: Global, flights: &mut Flights, numbers: &[u64]) -> Result<(), Fail> {
    let mut ops = Vec::new(alloc);
    for number in numbers {
        ops.push(upload(alloc, *number)?)?;
    }
    flights.fly(alloc, ops)?;
    Ok(())
}

fn flies(flights: &Flights, number: u64) -> bool {
    flights.op(number).is_some_and(|op| op.number == number)
}

#[test]
fn an_operation_is_planned_started_taken_and_done(rt: HostRuntime) -> Result<(), Fail> {
    let alloc = rt.alloc();
    let mut flights = Flights::new(alloc);
    fly(alloc, &mut flights, &[7])?;
    assert!(rt; flies(&flights, 7) && !flies(&flights, 8));
    assert!(rt; !flights.finish(7) && !flights.take(7, Taken::Accepted(1)));
    assert!(rt; !flights.is_started(7));
    assert!(rt; !flights.start(8) && flights.start(7) && !flights.start(7));
    assert!(rt; flights.is_started(7) && !flights.is_started(8));
    assert!(rt; flights.taken(7).is_none());
    assert!(rt; flights.take(7, Taken::Accepted(3)));
    assert!(rt; flights.taken(7) == Some(Taken::Accepted(3)) && !flights.is_started(7));
    assert!(rt; flights.finish(7) && !flies(&flights, 7) && !flights.finish(7));
    Ok(())
}

#[test]
fn going_back_brings_each_to_where_it_was(rt: HostRuntime) -> Result<(), Fail> {
    let alloc = rt.alloc();
    let mut flights = Flights::new(alloc);
    fly(alloc, &mut flights, &[1, 2])?;
    assert!(rt; flights.start(1));
    assert!(rt; flights.take(1, Taken::Folder(Outcome::Changed)));
    flights.settle();
    assert_eq!(rt; flights.len(), 2);
    assert!(rt; flights.finish(1) && flights.start(2));
    assert_eq!(rt; flights.len(), 1);
    fly(alloc, &mut flights, &[3])?;
    flights.back();
    assert!(rt; flights.taken(1) == Some(Taken::Folder(Outcome::Changed)));
    assert!(rt; flights.start(2) && !flies(&flights, 3));
    flights.clear();
    assert!(rt; !flies(&flights, 1) && !flies(&flights, 2));
    flights.back();
    assert!(rt; flies(&flights, 1) && flights.finish(1));
    flights.settle();
    flights.back();
    assert!(rt; !flies(&flights, 1) && flights.start(2));
    Ok(())
}
