use nuc_log::Log;
use nuc_script::LineFault;

/// How a run ended.
#[derive(Clone, Copy, Debug, PartialEq, Eq)]
pub enum Status {
    Ok,
    /// The words of the call aren't those of a command.
    Usage,
    /// The script's first line that is refused, counted from 1.
    ScriptFault { line: u64, kind: LineFault },
    /// The script couldn't be read to its end.
    ReadFault,
    /// The output couldn't be written to its end.
    WriteFault,
    /// A client was synced, and there is something left to be done.
    Stalled,
    /// The log has no room for another step.
    LogFull,
    Memory,
    /// A client's folder failed where it was to be listed.
    FolderFault,
    /// A client's folder has more items than a listing.
    ListingTooLong,
}

/// What is left of a run.
#[derive(Debug, Drop)]
pub struct Ended {
    pub status: Status,
    /// The status before the output was written.
    pub before: Status,
    pub log: Log,
}

impl Status {
    ghost use Rattle.std.specs.Prelude.{◌≡◌, MatchBool};
    ghost use Rattle.nuc_report.specs.Output.{PrintsLog, status_number};

    /// The number that a process ends with.
    pub fn number(&self) -> u8
        ensures { result ≡ status_number self.now }
    {
        match self {
            Status::Ok => 0,
            Status::Usage => 1,
            Status::ScriptFault { .. } => 2,
            Status::ReadFault => 3,
            Status::WriteFault => 4,
            Status::Stalled => 6,
            Status::LogFull => 8,
            Status::Memory => 9,
            Status::FolderFault => 10,
            Status::ListingTooLong => 11,
        }
    }

    /// Whether a run that ended so prints its log and the report.
    pub fn prints_log(&self) -> bool
        ensures { MatchBool result (PrintsLog self.now) (¬ (PrintsLog self.now)) }
    {
        match self {
            Status::Ok
            | Status::Stalled
            | Status::LogFull
            | Status::FolderFault
            | Status::ListingTooLong => true,
            Status::Usage
            | Status::ScriptFault { .. }
            | Status::ReadFault
            | Status::WriteFault
            | Status::Memory => false,
        }
    }
}
