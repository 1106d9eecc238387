ghost use Rattle.std.specs.Prelude.{◌≡◌};
ghost use Rattle.nuc_script.specs.declared.fault.Stop.TheVariants.{Memory};

use std::alloc::{AllocError, AllocFailed};

/// What is wrong with a line of a script: of what applies to it, the first one here. The kinds from `Client` on belong to a
/// word behind those that say what the line does, and of these words the first faulty one counts.
#[derive(Clone, Copy, Debug, PartialEq, Eq)]
pub enum LineFault {
    /// A script has at most 1,000,000 lines.
    Many,
    /// It has more than 4,096 bytes without its end.
    Long,
    /// It holds a control character.
    Byte,
    /// No line begins so.
    Word,
    /// It has too many or too few words.
    Count,
    /// The number of clients is told behind a command.
    Late,
    /// Not a client of the script.
    Client,
    /// Not a number in its range.
    Number,
    /// Not a path with valid names.
    Path,
    /// Not a content.
    Content,
    /// Not the word `reverse`.
    Order,
    /// Neither `on` nor `off`.
    Switch,
}

/// Why the reading of a line stops.
#[derive(Debug, Drop)]
pub enum Stop {
    Memory,
    Fault(LineFault),
}

impl From<AllocError> for Stop {
    ghost from_gives = { λ _ stop. stop ≡ Memory };

    fn from(_error: AllocError) -> Stop {
        Stop::Memory
    }
}

impl<T: Drop> From<AllocFailed<T>> for Stop {
    ghost from_gives = { λ _ stop. stop ≡ Memory };

    fn from(_error: AllocFailed<T>) -> Stop {
        Stop::Memory
    }
}
