ghost use Rattle.std.specs.Prelude.{◌≡◌};
ghost use Rattle.std.specs.Option.{option_copied};
ghost use Rattle.nuc_world.specs.Takes as spec;

use nuc_log::{Event, Log, LogEntry, Reply, StartReply};

/// What the last Start of a client's operation read, as the log has it. It looks from the end of the log on, where a Start
/// that isn't taken yet stands not far away.
pub(crate) fn read_in(log: &Log, client: u32, number: u64) -> Option<&[u8]>
    ensures { option_copied result ≡ spec.read_in client number log.now }
{
    let entries = log.entries();
    let mut left = entries.len();
    while left > 0 {
        left -= 1;
        if let Some(bytes) = read_by(&entries[left], client, number) {
            return Some(bytes);
        }
    }
    None
}

/// What an entry read, where it is a Start of this operation.
fn read_by(entry: &LogEntry, client: u32, number: u64) -> Option<&[u8]>
    ensures { option_copied result ≡ spec.read_by client number entry.now }
{
    match entry {
        LogEntry::Stepped {
            event: Event::Start {
                client: of,
                number: under,
            },
            reply: Reply::Started(answer),
        } => {
            if *of == client && *under == number {
                bytes_of(answer)
            } else {
                None
            }
        }
        _ => None,
    }
}

fn bytes_of(answer: &StartReply) -> Option<&[u8]>
    ensures { option_copied result ≡ spec.bytes_of answer.now }
{
    match answer {
        StartReply::Ok { bytes: Some(bytes) } => Some(bytes.as_slice()),
        _ => None,
    }
}
