ghost use Rattle.std.specs.Prelude.{◌≡◌, MatchBool};
ghost use Rattle.nuc_run.specs.Stalled.{IsStalled, last_mark, mark_by};

use nuc_log::{Event, Log, LogEntry, MarkReply, Reply};

/// Whether the last mark of one of so many clients says that it stalled.
pub(crate) fn is_stalled(log: &Log, clients: u32) -> bool
    ensures { MatchBool result (IsStalled clients log.now) (¬ (IsStalled clients log.now)) }
{
    for client in 1..=clients {
        if let Some(MarkReply::Stalled(_)) = last_mark(log, client) {
            return true;
        }
    }
    false
}

/// The last mark of a client. It looks from the end of the log on.
fn last_mark(log: &Log, client: u32) -> Option<MarkReply>
    ensures { result ≡ last_mark client log.now }
{
    let entries = log.entries();
    let mut left = entries.len();
    while left > 0 {
        left -= 1;
        if let Some(mark) = mark_by(&entries[left], client) {
            return Some(mark);
        }
    }
    None
}

fn mark_by(entry: &LogEntry, client: u32) -> Option<MarkReply>
    ensures { result ≡ mark_by client entry.now }
{
    match entry {
        LogEntry::Stepped {
            event: Event::Mark { client: of },
            reply: Reply::Marked(answer),
        } if *of == client => Some(*answer),
        _ => None,
    }
}
