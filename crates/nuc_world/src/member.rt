ghost use Rattle.std.specs.Prelude.{◌≡◌, [], IfOk, OnOk, map, replicate};
ghost use Rattle.nuc_class.specs.declared.op.Op.{Op};
ghost use Rattle.nuc_flights.specs.Flights.{IsPlanned, StandsAt};
ghost use Rattle.nuc_flights.specs.declared.taken.Taken.TheVariants as came;
ghost use Rattle.nuc_step.specs.Sound.{FitsOutcome};
ghost use Rattle.nuc_step.specs.Steps.{after_start, after_take};
ghost use Rattle.nuc_world.specs.Parts.{member_now, member_then};
ghost use Rattle.nuc_world.specs.State.{fresh_member};

use nuc_base::TreeLike;
use nuc_flights::Taken;
use nuc_folder::{MemFolder, Outcome};
use nuc_log::Member;
use nuc_lookup::UndoLookup;
use nuc_observe::Keys;
use nuc_replica::{Local, Remote};
use nuc_step::Client;
use std::alloc::{AllocError, Global};

/// A client without anything in it, with an empty folder.
fn new_member<T: TreeLike + Drop>(alloc: Global) -> Result<Member<T>, AllocError>
    ensures now { IfOk result (λ m. member_now m.client m.folder ≡ fresh_member) }
    ensures settled { IfOk result (λ m. member_then m.client m.folder ≡ fresh_member) }
{
    let remote = Remote::of(alloc, T::empty(alloc)?, UndoLookup::new(alloc), 0);
    let local = Local::of(alloc, T::empty(alloc)?, Keys::new(alloc));
    Ok(Member {
        client: Client::of(alloc, remote, local, T::empty(alloc)?, 0, 1),
        folder: MemFolder::new(alloc),
    })
}

/// So many members without anything in them.
pub(crate) fn new_members<T: TreeLike + Drop>(
    alloc: Global,
    count: u32,
) -> Result<Vec<Member<T>>, AllocError>
    ensures now { IfOk result (λ members. map (λ m. member_now m.client m.folder) members.items ≡ replicate count fresh_member) }
    ensures settled { IfOk result (λ members. map (λ m. member_then m.client m.folder) members.items ≡ replicate count fresh_member) }
{
    let mut members = Vec::with_capacity(alloc, count as usize)?;
    for _ in 0..count {
        members.push(new_member(alloc)?)?;
    }
    Ok(members)
}

/// What there is now is what `back` leads to. It takes no memory.
pub(crate) fn settle<T: TreeLike + Drop>(member: &mut Member<T>)
    ensures now { member_now member.new.client member.new.folder ≡ member_now member.old.client member.old.folder }
    ensures settled { member_then member.new.client member.new.folder ≡ member_now member.old.client member.old.folder }
{
    member.client.settle();
    member.folder.settle();
}

/// What there was at the last `settle` is there again; which calls of the folder fail stays. It takes no memory.
pub(crate) fn back<T: TreeLike + Drop>(member: &mut Member<T>)
    ensures now { member_now member.new.client member.new.folder ≡ member_then member.old.client member.old.folder }
    ensures settled { member_then member.new.client member.new.folder ≡ member_then member.old.client member.old.folder }
{
    member.client.back();
    member.folder.back();
}

/// An operation begins that is known to be planned.
pub(crate) fn begin<T: TreeLike>(client: &mut Client<T>, number: u64)
    requires { StandsAt number IsPlanned client.old.now.flights }
    ensures now { client.new.now ≡ after_start number client.old.now }
    ensures settled { client.new.settled ≡ client.old.settled }
    ensures listing { client.new.listing ≡ client.old.listing }
{
    let Ok(()) = client.start(number) else {
        unreachable!()
    };
}

/// It begins, and is over at once.
pub(crate) fn end<T: TreeLike>(
    alloc: Global,
    client: &mut Client<T>,
    number: u64,
    outcome: Outcome,
) -> Result<(), AllocError>
    requires planned { StandsAt number IsPlanned client.old.now.flights }
    requires fits { (op : Op) → FitsOutcome op outcome }
    ensures ok { OnOk result (client.new.now ≡ after_take number (came.Folder outcome) [] (after_start number client.old.now)) }
    ensures settled { client.new.settled ≡ client.old.settled }
    ensures listing { client.new.listing ≡ client.old.listing }
{
    begin(client, number);
    match client.take(alloc, number, Taken::Folder(outcome), &[]) {
        Ok(()) => Ok(()),
        Err(_) => Err(AllocError),
    }
}
