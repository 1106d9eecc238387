ghost use Rattle.nuc_run.specs.OneOutcome.{OneNumber, OneOutcome};
ghost use Rattle.nuc_run.specs.Quiet.{ScriptsEndQuiet};

/// A script has one outcome: two runs of the same commands end with the same status and the same log, unless one of them
/// wanted memory. And where a folder held too many items, their number is the same.
pub fn a_script_has_one_outcome()
    ensures outcome { OneOutcome }
    ensures number { OneNumber }
{}

/// In a script without `fail` lines each sync that comes to its end is marked quiet, with the three trees equal and a folder
/// that holds just what Local says, unless two lists of bytes have one SHA-256. So no such script ends with the status of a
/// stalled sync, or of a folder that couldn't be listed.
pub fn a_script_ends_quiet()
    ensures { ScriptsEndQuiet }
{}
