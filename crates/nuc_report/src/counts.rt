ghost use Rattle.std.specs.Prelude.{◌≡◌, ◌+◌, sum_by, IfOk, IfSome};
ghost use Rattle.std.specs.String.{string_bytes};
ghost use Rattle.nuc_report.specs.Output.{batched, copies, is_copy, mends, records, summary_text};

use nuc_class::Verb;
use nuc_log::{Log, LogEntry, Reply};
use nuc_step::Planned;
use std::alloc::{AllocError, Global};

/// The line `summary`. It wants memory also where the batches have more operations than `u64` can count.
pub fn summary(alloc: Global, log: &Log) -> Result<String, AllocError>
    ensures { IfOk result (λ text. string_bytes text ≡ summary_text log.now) }
{
    let steps = log.entries().len();
    let counts = counted(log.entries())?;
    let (batched, records) = (counts.batched, counts.records);
    let (mends, copies) = (counts.mends, counts.copies);
    format!(in alloc; "summary {steps} {batched} {records} {mends} {copies}\n")
}

/// What a summary counts.
#[derive(Drop)]
struct Counts {
    /// The operations of batches.
    batched: u64,
    /// The plans that were record steps.
    records: u64,
    /// The plans that were mends.
    mends: u64,
    /// The mends that made a conflicted copy.
    copies: u64,
}

fn counted(log: &[LogEntry]) -> Result<Counts, AllocError>
    ensures batched { IfOk result (λ counts. counts.batched ≡ sum_by batched log.now) }
    ensures records { IfOk result (λ counts. counts.records ≡ sum_by records log.now) }
    ensures mends { IfOk result (λ counts. counts.mends ≡ sum_by mends log.now) }
    ensures copies { IfOk result (λ counts. counts.copies ≡ sum_by copies log.now) }
{
    let mut batched = 0u64;
    let mut records = 0u64;
    let mut mends = 0u64;
    let mut copies = 0u64;
    for entry in log {
        batched = batched.checked_add(batched_by(entry)).ok_or(AllocError)?;
        records = records.checked_add(records_of(entry)).ok_or(AllocError)?;
        mends = mends.checked_add(mends_of(entry)).ok_or(AllocError)?;
        copies = copies.checked_add(copies_of(entry)).ok_or(AllocError)?;
    }
    Ok(Counts {
        batched,
        records,
        mends,
        copies,
    })
}

fn batched_by(entry: &LogEntry) -> u64
    ensures { result ≡ batched entry.now }
{
    match entry {
        LogEntry::Stepped {
            reply: Reply::Plan(Planned::Batch(ops)),
            ..
        } => ops.len() as u64,
        _ => 0,
    }
}

fn records_of(entry: &LogEntry) -> u64
    ensures { result ≡ records entry.now }
{
    match entry {
        LogEntry::Stepped {
            reply: Reply::Plan(Planned::Booked(_)),
            ..
        } => 1,
        _ => 0,
    }
}

fn mends_of(entry: &LogEntry) -> u64
    ensures { result ≡ mends entry.now }
{
    match entry {
        LogEntry::Stepped {
            reply: Reply::Plan(Planned::Mend(_)),
            ..
        } => 1,
        _ => 0,
    }
}

fn copies_of(entry: &LogEntry) -> u64
    ensures { result ≡ copies entry.now }
{
    match entry {
        LogEntry::Stepped {
            reply: Reply::Plan(Planned::Mend(op)),
            ..
        } => is_copy(op.verb),
        _ => 0,
    }
}

fn is_copy(verb: Verb) -> u64
    ensures { result ≡ is_copy verb }
{
    match verb {
        Verb::Split => 1,
        _ => 0,
    }
}
