ghost use Rattle.std.specs.Prelude.{◌≡◌, ◌<◌, [], ◌∷◌, None, All, IfOk, OnErr, OnOk};
ghost use Rattle.std.specs.FinMap.{get};
ghost use Rattle.nuc_step.specs.Planning.{CanNote, CanPlan, IsAdopted, IsMendedAtOnce, IsNoted, IsPlanOf, MayComeFor, MendGoes, PlanAnswers, next_after, numbered_one};
ghost use Rattle.nuc_step.specs.Sound.{MayFly};
ghost use Rattle.nuc_step.specs.Steps.{after_fly, numbered};

use crate::client::trees_are_sound;
use crate::counts::Counts;
use crate::landing::{adopt, land_in_folder};
use crate::launch::number_from;
use crate::noting::{come_for, copies, counted, is_changed_by, lay_one, number_one};
use crate::{Client, Planned};
use nuc_base::{Counters, NodeId, TreeLike};
use nuc_class::{Effect, Op, Verb};
use nuc_edits::Edits;
use nuc_folder::Outcome;
use nuc_plan::{Plan, plan};
use sqlite_items::Items;
use std::alloc::{AllocError, Global};

impl<T: TreeLike> Client<T> {
    /// Plans what comes next, by the three trees, with `edits` to tell which versions have the same content. What is to be
    /// carried out in the folder or at the server is put in flight, as `fly` does; what the client alone notes takes place
    /// at once. A split takes `next_id` of `ids` for its copy. After an `Err` all is as it was.
    pub fn plan(
        &mut self,
        alloc: Global,
        ids: &mut Counters,
        edits: &mut Edits,
    ) -> Result<Planned, AllocError>
        requires { CanPlan self.old.now ids.old.next_id }
        ensures ok { IfOk result (λ answer. PlanAnswers (record { client = self.old.now; recorded = edits.old.now; next_id = ids.old.next_id }) answer (record { client = self.new.now; recorded = edits.new.now; next_id = ids.new.next_id })) }
        ensures err { OnErr result (self.new.now ≡ self.old.now) }
        ensures err_edits { OnErr result (edits.new.now ≡ edits.old.now) }
        ensures err_ids { OnErr result (ids.new ≡ ids.old) }
        ensures versions { ids.new.next_ver ≡ ids.old.next_ver }
        ensures settled { self.new.settled ≡ self.old.settled }
        ensures listing { self.new.listing ≡ self.old.listing }
        ensures edits_settled { edits.new.settled ≡ edits.old.settled }
    {
        let flying = self.flights.len();
        if flying > 0 {
            return Ok(Planned::Busy(flying));
        }
        match self.due(alloc, ids.next_id, edits)? {
            Plan::Empty => Ok(Planned::Empty),
            Plan::Booked(op) => Ok(Planned::Booked(self.note(alloc, op, edits)?)),
            Plan::Batch(ops) => {
                let shown = self.launch_batch(alloc, ops.as_slice())?;
                Ok(Planned::Batch(Items::from_vec(shown)))
            }
            Plan::Mend(op) => Ok(Planned::Mend(self.mend(alloc, ids, op, edits)?)),
        }
    }

    /// The plan of the three trees, which changes nothing.
    fn due(&self, alloc: Global, next_id: u64, edits: &Edits) -> Result<Plan, AllocError>
        requires idle { self.now.now.flights ≡ [] }
        requires fit { CanPlan self.now.now next_id }
        ensures { IfOk result (λ p. IsPlanOf (record { client = self.now.now; recorded = edits.now.now; next_id = next_id }) p) }
    {
        let (remote, local, synced) = (self.remote.tree(), self.local.tree(), self.synced.tree());
        plan(alloc, remote, local, synced, edits, NodeId(next_id))
    }

    /// Puts the operations of a batch in flight, and shows them with their numbers and bases.
    fn launch_batch(&mut self, alloc: Global, ops: &[Op]) -> Result<Vec<Op>, AllocError>
        requires idle { self.old.now.flights ≡ [] }
        requires may { All MayFly ops.now }
        ensures shown { IfOk result (λ shown. shown.items ≡ numbered self.old.now.next_op self.old.now.remote ops.now) }
        ensures ok { IfOk result (λ shown. self.new.now ≡ after_fly ops.now self.old.now) }
        ensures err { OnErr result (self.new.now ≡ self.old.now) }
        ensures settled { self.new.settled ≡ self.old.settled }
        ensures listing { self.new.listing ≡ self.old.listing }
    {
        let next_op = self.counts.next_op;
        next_op.checked_add(ops.len() as u64).ok_or(AllocError)?;
        let mut shown = copies(alloc, ops)?;
        number_from(next_op, &self.remote, &mut shown);
        self.launch(alloc, copies(alloc, ops)?)?;
        Ok(shown)
    }

    /// Puts one operation in flight, and shows it with its number and base.
    fn launch_one(&mut self, alloc: Global, op: Op) -> Result<Op, AllocError>
        requires idle { self.old.now.flights ≡ [] }
        requires may { MayFly op }
        ensures shown { IfOk result (λ shown. shown ≡ numbered_one self.old.now.next_op self.old.now.remote op) }
        ensures ok { IfOk result (λ shown. self.new.now ≡ after_fly (op ∷ []) self.old.now) }
        ensures err { OnErr result (self.new.now ≡ self.old.now) }
        ensures settled { self.new.settled ≡ self.old.settled }
        ensures listing { self.new.listing ≡ self.old.listing }
    {
        let shown = number_one(self.counts.next_op, &self.remote, op.copy(alloc)?);
        self.launch(alloc, vec![in alloc; op]?)?;
        Ok(shown)
    }

    /// Lets an operation take place at once that the client alone notes, and shows it with its number.
    fn note(&mut self, alloc: Global, op: Op, edits: &mut Edits) -> Result<Op, AllocError>
        requires idle { self.old.now.flights ≡ [] }
        requires can { CanNote self.old.now op }
        ensures shown { IfOk result (λ shown. shown ≡ numbered_one self.old.now.next_op self.old.now.remote op) }
        ensures ok { OnOk result (IsNoted op self.old.now edits.old.now self.new.now edits.new.now) }
        ensures err { OnErr result (self.new.now ≡ self.old.now) }
        ensures err_edits { OnErr result (edits.new.now ≡ edits.old.now) }
        ensures settled { self.new.settled ≡ self.old.settled }
        ensures listing { self.new.listing ≡ self.old.listing }
        ensures edits_settled { edits.new.settled ≡ edits.old.settled }
    {
        let shown = number_one(self.counts.next_op, &self.remote, op);
        self.take_place(alloc, &shown, edits)?;
        Ok(shown)
    }

    /// Lets an operation take place at once that has the next number.
    fn take_place(&mut self, alloc: Global, op: &Op, edits: &mut Edits) -> Result<(), AllocError>
        requires idle { self.old.now.flights ≡ [] }
        requires number { op.now.number ≡ self.old.now.next_op }
        requires can { CanNote self.old.now op.now }
        ensures ok { OnOk result (IsNoted op.now self.old.now edits.old.now self.new.now edits.new.now) }
        ensures err { OnErr result (self.new.now ≡ self.old.now) }
        ensures err_edits { OnErr result (edits.new.now ≡ edits.old.now) }
        ensures settled { self.new.settled ≡ self.old.settled }
        ensures listing { self.new.listing ≡ self.old.listing }
        ensures edits_settled { edits.new.settled ≡ edits.old.settled }
    {
        let is_changed = is_changed_by(self.local.tree(), op);
        let changes = counted(self.counts.changes, is_changed)?;
        let next_op = self.counts.next_op.checked_add(1).ok_or(AllocError)?;
        lay_one(alloc, &mut self.local, &mut self.synced, op, edits)?;
        land_in_folder(&mut self.local, &mut self.synced, op, Outcome::Ok, edits);
        trees_are_sound(&self.local, &self.synced);
        self.counts = Counts { changes, next_op };
        Ok(())
    }

    /// Lets two identities become one, and shows the operation with its number.
    fn adopt(&mut self, alloc: Global, op: Op, edits: &mut Edits) -> Result<Op, AllocError>
        requires idle { self.old.now.flights ≡ [] }
        requires some { 0 < op.id.0 }
        requires absent { get self.old.now.local.tree op.id.0 ≡ None }
        requires comes { MayComeFor self.old.now.local.tree op.other.0 op.local }
        ensures shown { IfOk result (λ shown. shown ≡ numbered_one self.old.now.next_op self.old.now.remote op) }
        ensures ok { OnOk result (IsAdopted op self.old.now edits.old.now self.new.now edits.new.now) }
        ensures err { OnErr result (self.new.now ≡ self.old.now) }
        ensures err_edits { OnErr result (edits.new.now ≡ edits.old.now) }
        ensures settled { self.new.settled ≡ self.old.settled }
        ensures listing { self.new.listing ≡ self.old.listing }
        ensures edits_settled { edits.new.settled ≡ edits.old.settled }
    {
        let shown = number_one(self.counts.next_op, &self.remote, op);
        self.become_one(alloc, &shown, edits)?;
        Ok(shown)
    }

    /// Lets two identities become one: in Local the operation's own comes in place of the other.
    fn become_one(&mut self, alloc: Global, op: &Op, edits: &mut Edits) -> Result<(), AllocError>
        requires idle { self.old.now.flights ≡ [] }
        requires some { 0 < op.now.id.0 }
        requires absent { get self.old.now.local.tree op.now.id.0 ≡ None }
        requires comes { MayComeFor self.old.now.local.tree op.now.other.0 op.now.local }
        ensures ok { OnOk result (IsAdopted op.now self.old.now edits.old.now self.new.now edits.new.now) }
        ensures err { OnErr result (self.new.now ≡ self.old.now) }
        ensures err_edits { OnErr result (edits.new.now ≡ edits.old.now) }
        ensures settled { self.new.settled ≡ self.old.settled }
        ensures listing { self.new.listing ≡ self.old.listing }
        ensures edits_settled { edits.new.settled ≡ edits.old.settled }
    {
        let changes = self.counts.changes.checked_add(1).ok_or(AllocError)?;
        let next_op = self.counts.next_op.checked_add(1).ok_or(AllocError)?;
        edits.reserve(1)?;
        let (remote, synced) = (self.remote.tree(), self.synced.tree());
        let old = come_for(alloc, remote, &mut self.local, synced, op)?;
        trees_are_sound(&self.local, &self.synced);
        adopt(edits, Some(&old), &op.local);
        self.counts.changes = changes;
        self.counts.next_op = next_op;
        Ok(())
    }

    /// Lets a mend take place, or puts it in flight where it has an effect.
    fn mend(
        &mut self,
        alloc: Global,
        ids: &mut Counters,
        op: Op,
        edits: &mut Edits,
    ) -> Result<Op, AllocError>
        requires fit { CanPlan self.old.now ids.old.next_id }
        requires plan { IsPlanOf (record { client = self.old.now; recorded = edits.old.now; next_id = ids.old.next_id }) (Plan.Mend op) }
        ensures shown { IfOk result (λ shown. shown ≡ numbered_one self.old.now.next_op self.old.now.remote op) }
        ensures ok { OnOk result (MendGoes op.effect op (record { client = self.old.now; recorded = edits.old.now; next_id = ids.old.next_id }) (record { client = self.new.now; recorded = edits.new.now; next_id = ids.new.next_id })) }
        ensures err { OnErr result (self.new.now ≡ self.old.now) }
        ensures err_edits { OnErr result (edits.new.now ≡ edits.old.now) }
        ensures err_ids { OnErr result (ids.new ≡ ids.old) }
        ensures versions { ids.new.next_ver ≡ ids.old.next_ver }
        ensures settled { self.new.settled ≡ self.old.settled }
        ensures listing { self.new.listing ≡ self.old.listing }
        ensures edits_settled { edits.new.settled ≡ edits.old.settled }
    {
        if op.effect == Effect::Nothing {
            self.mend_at_once(alloc, ids.next_id, op, edits)
        } else {
            self.fly_mend(alloc, ids, op)
        }
    }

    /// Lets a mend without effect take place.
    fn mend_at_once(
        &mut self,
        alloc: Global,
        next_id: u64,
        op: Op,
        edits: &mut Edits,
    ) -> Result<Op, AllocError>
        requires fit { CanPlan self.old.now next_id }
        requires plan { IsPlanOf (record { client = self.old.now; recorded = edits.old.now; next_id = next_id }) (Plan.Mend op) }
        requires nothing { op.effect ≡ Effect.Nothing }
        ensures shown { IfOk result (λ shown. shown ≡ numbered_one self.old.now.next_op self.old.now.remote op) }
        ensures ok { OnOk result (IsMendedAtOnce op.verb op self.old.now edits.old.now self.new.now edits.new.now) }
        ensures err { OnErr result (self.new.now ≡ self.old.now) }
        ensures err_edits { OnErr result (edits.new.now ≡ edits.old.now) }
        ensures settled { self.new.settled ≡ self.old.settled }
        ensures listing { self.new.listing ≡ self.old.listing }
        ensures edits_settled { edits.new.settled ≡ edits.old.settled }
    {
        if op.verb == Verb::Adopt {
            self.adopt(alloc, op, edits)
        } else {
            self.note(alloc, op, edits)
        }
    }

    /// Puts a mend in flight. The copy that a split makes has the next identity.
    fn fly_mend(&mut self, alloc: Global, ids: &mut Counters, op: Op) -> Result<Op, AllocError>
        requires idle { self.old.now.flights ≡ [] }
        requires may { MayFly op }
        ensures shown { IfOk result (λ shown. shown ≡ numbered_one self.old.now.next_op self.old.now.remote op) }
        ensures ok { OnOk result (self.new.now ≡ after_fly (op ∷ []) self.old.now) }
        ensures ids { OnOk result (ids.new.next_id ≡ next_after op.verb ids.old.next_id) }
        ensures versions { ids.new.next_ver ≡ ids.old.next_ver }
        ensures err { OnErr result (self.new.now ≡ self.old.now) }
        ensures err_ids { OnErr result (ids.new ≡ ids.old) }
        ensures settled { self.new.settled ≡ self.old.settled }
        ensures listing { self.new.listing ≡ self.old.listing }
    {
        let next_id = next_after(op.verb, ids.next_id)?;
        let shown = self.launch_one(alloc, op)?;
        ids.next_id = next_id;
        Ok(shown)
    }
}

/// The next identity once a mend of this verb has taken what it needs.
fn next_after(verb: Verb, next_id: u64) -> Result<u64, AllocError>
    ensures { IfOk result (λ next. next ≡ next_after verb next_id) }
{
    match verb {
        Verb::Split => next_id.checked_add(1).ok_or(AllocError),
        _ => Ok(next_id),
    }
}
