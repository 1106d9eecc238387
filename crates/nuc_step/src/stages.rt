ghost use Rattle.std.specs.Prelude.{◌≡◌};
ghost use Rattle.std.specs.Option.{option_copied};
ghost use Rattle.nuc_flights.specs.Flights.{flight_of};
ghost use Rattle.nuc_step.specs.Stages.{planned_of, started_of};

use crate::Client;
use nuc_base::TreeLike;
use nuc_class::Op;

impl<T: TreeLike> Client<T> {
    /// The operation under this number, where it is planned and hasn't begun.
    pub fn planned(&self, number: u64) -> Option<&Op>
        ensures { option_copied result ≡ planned_of (flight_of number self.now.now.flights) }
    {
        if self.flights.is_planned(number) {
            self.flights.op(number)
        } else {
            None
        }
    }

    /// The operation under this number, where it has begun and wasn't taken yet.
    pub fn started(&self, number: u64) -> Option<&Op>
        ensures { option_copied result ≡ started_of (flight_of number self.now.now.flights) }
    {
        if self.flights.is_started(number) {
            self.flights.op(number)
        } else {
            None
        }
    }
}
