ghost use Rattle.nuc_script.specs.Fitting.{EveryScriptFits};
ghost use Rattle.nuc_script.specs.Taking.{OneReading};

use crate::{Command, LineFault};
use sqlite_items::Items;

/// How the reading of a script is answered.
#[derive(Debug, Drop)]
pub enum ScriptRead {
    /// All of it, to the end of the source.
    Commands(Items<Command>),
    /// The first faulty line, with its number from 1.
    Fault { line: u64, kind: LineFault },
    /// The source failed.
    ReadFault,
    Memory,
}

/// Where a source tells its bytes, commands and faults are those of all of its bytes.
pub fn is_read_in_one_way()
    ensures { OneReading }
{}

/// The commands of a script keep to their bounds: clients, numbers, names and the bytes of a content.
pub fn has_fitting_commands()
    ensures { EveryScriptFits }
{}
