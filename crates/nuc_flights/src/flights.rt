ghost use Rattle.std.specs.Prelude.{◌≡◌, ◌≢◌, ◌++◌, ◌∷◌, [], ℕ, length, map, MatchBool, MatchOption, IfOk, OnOk, OnErr};
ghost use Rattle.std.specs.List.{filter, position};
ghost use Rattle.std.specs.Option.{option_copied, option_map};
ghost use Rattle.nuc_flights.specs.Flights.{IsPlanned, IsStarted, IsTaken, StandsAt, as_planned, flight_of, taken_of, staged, taken, started, without};
ghost use Rattle.nuc_flights.specs.Slots.{Finds, away_slot, back_slot, flies, is_kept, planned_slot, settled_slot};
ghost use Rattle.nuc_flights.specs.declared.slot.Slot.{Slot};

use crate::Taken;
use crate::slot::{Level, Slot};
use nuc_class::Op;
use std::alloc::{AllocError, Global};
use std::marker::Model;

/// The operations in flight, in the order of their planning.
///
/// A batch has few operations, so they are looked through one by one: every call takes time in their number, of those that
/// are in flight and those that were when the flights were last settled.
#[derive(Debug, Drop)]
pub struct Flights {
    slots: Vec<Slot>,
}

impl Model for Flights {
    ghost use Rattle.std.specs.Prelude.{All};
    ghost use Rattle.nuc_flights.specs.Flights.{FlightsState};
    ghost use Rattle.nuc_flights.specs.Slots.{IsSound, flights_now, flights_were};

    ghost Value = { FlightsState };

    ghost view = { λ f. record { now = flights_now f.slots.items; settled = flights_were f.slots.items } };

    ghost invariant = { λ f. All IsSound f.slots.items };
}

impl Flights {
    /// Nothing in flight, in no memory.
    pub fn new(alloc: Global) -> Flights
        ensures { result ≡ record { now = []; settled = [] } }
    {
        Flights {
            slots: Vec::new(alloc),
        }
    }

    /// Puts operations in flight, planned, behind the others. Only memory can be wanted.
    pub fn fly(&mut self, alloc: Global, ops: Vec<Op>) -> Result<(), AllocError>
        ensures ok { OnOk result (self.new.now ≡ self.old.now ++ map as_planned ops.items) }
        ensures err { OnErr result (self.new.now ≡ self.old.now) }
        ensures settled { self.new.settled ≡ self.old.settled }
    {
        let mut slots = planned_slots(alloc, ops)?;
        self.slots.append(&mut slots)
    }

    /// The operation in flight under this number.
    pub fn op(&self, number: u64) -> Option<&Op>
        ensures { option_copied result ≡ option_map (λ f. f.op) (flight_of number self.now.now) }
    {
        match position_of(&self.slots, number) {
            Some(at) => Some(&self.slots[at].op),
            None => None,
        }
    }

    /// What came of the operation under this number, where it was taken.
    pub fn taken(&self, number: u64) -> Option<Taken>
        ensures { result ≡ taken_of (flight_of number self.now.now) }
    {
        match position_at(&self.slots, number, Level::Taken) {
            Some(at) => self.slots[at].came,
            None => None,
        }
    }

    /// How many operations are in flight.
    pub fn len(&self) -> u64
        ensures { result ≡ length self.now.now }
    {
        count_flying(&self.slots)
    }

    /// A planned operation is started. Whether there is one under this number.
    pub fn start(&mut self, number: u64) -> bool
        ensures started { MatchBool result (StandsAt number IsPlanned self.old.now × (self.new.now ≡ staged number started self.old.now))
            (¬ (StandsAt number IsPlanned self.old.now) × (self.new.now ≡ self.old.now)) }
        ensures settled { self.new.settled ≡ self.old.settled }
    {
        let Some(at) = position_at(&self.slots, number, Level::Planned) else {
            return false;
        };
        self.slots[at].at = Level::Started;
        true
    }

    /// Whether the operation under this number is in flight and hasn't started.
    pub fn is_planned(&self, number: u64) -> bool
        ensures { MatchBool result (StandsAt number IsPlanned self.now.now) (¬ (StandsAt number IsPlanned self.now.now)) }
    {
        match position_at(&self.slots, number, Level::Planned) {
            Some(_) => true,
            None => false,
        }
    }

    /// Whether the operation under this number is in flight, started and not taken.
    pub fn is_started(&self, number: u64) -> bool
        ensures { MatchBool result (StandsAt number IsStarted self.now.now) (¬ (StandsAt number IsStarted self.now.now)) }
    {
        match position_at(&self.slots, number, Level::Started) {
            Some(_) => true,
            None => false,
        }
    }

    /// A started operation was taken, and this came of it. Whether there is one under this number; else what came is
    /// dropped.
    pub fn take(&mut self, number: u64, came: Taken) -> bool
        ensures taken { MatchBool result (StandsAt number IsStarted self.old.now × (self.new.now ≡ staged number (taken came) self.old.now))
            (¬ (StandsAt number IsStarted self.old.now) × (self.new.now ≡ self.old.now)) }
        ensures settled { self.new.settled ≡ self.old.settled }
    {
        let Some(at) = position_at(&self.slots, number, Level::Started) else {
            return false;
        };
        self.slots[at].land(came);
        true
    }

    /// A taken operation is done. Whether there is one under this number.
    pub fn finish(&mut self, number: u64) -> bool
        ensures finished { MatchBool result (StandsAt number IsTaken self.old.now × (self.new.now ≡ without number self.old.now))
            (¬ (StandsAt number IsTaken self.old.now) × (self.new.now ≡ self.old.now)) }
        ensures settled { self.new.settled ≡ self.old.settled }
    {
        let Some(at) = position_at(&self.slots, number, Level::Taken) else {
            return false;
        };
        self.slots[at].at = Level::Away;
        true
    }

    /// Nothing is in flight any more.
    pub fn clear(&mut self)
        ensures now { self.new.now ≡ [] }
        ensures settled { self.new.settled ≡ self.old.settled }
    {
        put_away(&mut self.slots);
    }

    /// What is in flight now is what `back` leads to. It takes no memory.
    pub fn settle(&mut self)
        ensures now { self.new.now ≡ self.old.now }
        ensures settled { self.new.settled ≡ self.old.now }
    {
        note_levels(&mut self.slots);
        drop_away(&mut self.slots);
    }

    /// What was in flight at the last `settle` is so again, each as far as it had come then. It takes no memory.
    pub fn back(&mut self)
        ensures now { self.new.now ≡ self.old.settled }
        ensures settled { self.new.settled ≡ self.old.settled }
    {
        take_levels_back(&mut self.slots);
        drop_away(&mut self.slots);
    }
}

fn planned_slots(alloc: Global, ops: Vec<Op>) -> Result<Vec<Slot>, AllocError>
    ensures { IfOk result (λ slots. slots.items ≡ map planned_slot ops.items) }
{
    ops.into_iter().map(Slot::planned).collect(alloc)
}

/// Where the operation in flight under this number is.
fn position_of(slots: &[Slot], number: u64) -> Option<usize>
    ensures { result ≡ position (flies number) slots.now }
{
    slots.iter().position(|slot| slot.flies(number))
}

/// Where the operation in flight under this number is, if it has come just so far.
fn position_at(slots: &[Slot], number: u64, level: Level) -> Option<usize>
    ensures { MatchOption result ((i : ℕ) (s : Slot) → Finds number slots.now i s → s.at ≢ level) (λ i. (s : Slot) × Finds number slots.now i s × (s.at ≡ level)) }
{
    match position_of(slots, number) {
        Some(at) => {
            if slots[at].at == level {
                Some(at)
            } else {
                None
            }
        }
        None => None,
    }
}

/// How many slots are of operations in flight.
fn count_flying(slots: &[Slot]) -> u64
    ensures { result ≡ length (filter is_kept slots.now) }
{
    slots.iter().filter(|slot| slot.is_flying()).count() as u64
}

fn put_away(slots: &mut Vec<Slot>)
    ensures { slots.new.items ≡ map away_slot slots.old.items }
{
    for slot in slots.iter_mut() {
        slot.at = Level::Away;
    }
}

fn note_levels(slots: &mut Vec<Slot>)
    ensures { slots.new.items ≡ map settled_slot slots.old.items }
{
    for slot in slots.iter_mut() {
        slot.was = slot.at;
    }
}

fn take_levels_back(slots: &mut Vec<Slot>)
    ensures { slots.new.items ≡ map back_slot slots.old.items }
{
    for slot in slots.iter_mut() {
        slot.at = slot.was;
    }
}

/// Drops the slots of operations that aren't in flight.
fn drop_away(slots: &mut Vec<Slot>)
    ensures { slots.new.items ≡ filter is_kept slots.old.items }
{
    slots.retain(|slot| slot.is_flying());
}
