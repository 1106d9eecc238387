ghost use Rattle.std.specs.Prelude.{◌≡◌, Some};
ghost use Rattle.nuc_flights.specs.Slots.{flies, is_kept, planned_slot};

use crate::Taken;
use nuc_class::Op;

/// How far an operation has come.
#[derive(Clone, Copy, Debug, PartialEq, Eq)]
pub enum Level {
    /// It isn't in flight: not planned yet, or done.
    Away,
    Planned,
    Started,
    Taken,
}

/// An operation that is in flight, or was when the flights were last settled.
#[derive(Debug, Drop)]
pub struct Slot {
    pub op: Op,
    pub at: Level,
    /// How far it had come when the flights were last settled.
    pub was: Level,
    /// What came of its outside change, from when it is taken.
    pub came: Option<Taken>,
}

impl Slot {
    pub fn planned(op: Op) -> Slot
        ensures { result ≡ planned_slot op }
    {
        Slot {
            op,
            at: Level::Planned,
            was: Level::Away,
            came: None,
        }
    }

    /// It was taken, and this came of it.
    pub fn land(&mut self, came: Taken)
        ensures { self.new ≡ record self.old { at = Level.Taken; came = Some came } }
    {
        self.at = Level::Taken;
        self.came = Some(came);
    }

    /// Whether it is in flight.
    pub fn is_flying(&self) -> bool
        ensures { result ≡ is_kept self.now }
    {
        self.at != Level::Away
    }

    /// Whether it is in flight under this number.
    pub fn flies(&self, number: u64) -> bool
        ensures { result ≡ flies number self.now }
    {
        self.is_flying() && self.op.number == number
    }
}
