ghost use Rattle.std.specs.Prelude.{◌≡◌, ◌++◌, IfOk, OnOk};
ghost use Rattle.std.specs.String.{string_bytes};
ghost use Rattle.nuc_report.specs.Entry.{log_text};
ghost use Rattle.nuc_report.specs.Output.{PrintsLog, fault_word, output_of, refusal_text, status_text};
ghost use Rattle.nuc_report.specs.Report.{Seen};
ghost use Rattle.nuc_report.specs.Seen.{IsSeen, shown_by};

use crate::Status;
use crate::counts::summary;
use crate::entry::log_line;
use crate::state::push_report;
use crate::usage::USAGE;
use nuc_base::TreeLike;
use nuc_log::{Log, LogEntry, View};
use nuc_script::LineFault;
use std::alloc::{AllocError, Global};

/// All that a run prints that began: log, report, summary and status.
pub fn output<T: TreeLike>(
    alloc: Global,
    before: &Status,
    log: &Log,
    view: &View<'_, T>,
) -> Result<String, AllocError>
    requires { PrintsLog before.now }
    ensures { IfOk result (λ text. (seen : Seen) × IsSeen (shown_by view.now) seen × (string_bytes text ≡ output_of before.now log.now seen)) }
{
    let mut text = String::new(alloc);
    push_log(alloc, &mut text, log.entries())?;
    push_report(alloc, &mut text, view)?;
    text.push_str(summary(alloc, log)?.as_str())?;
    text.push_str(status_line(alloc, before)?.as_str())?;
    Ok(text)
}

/// All that a run prints that couldn't begin; nothing for the other statuses.
pub fn refusal(alloc: Global, before: &Status) -> Result<String, AllocError>
    ensures { IfOk result (λ text. string_bytes text ≡ refusal_text before.now) }
{
    match before {
        Status::Usage => {
            let mut text = String::from_str(alloc, USAGE)?;
            text.push_str(status_line(alloc, before)?.as_str())?;
            Ok(text)
        }
        Status::ScriptFault { .. } | Status::ReadFault => status_line(alloc, before),
        _ => Ok(String::new(alloc)),
    }
}

/// The line `status`, the last that a run prints.
pub fn status_line(alloc: Global, status: &Status) -> Result<String, AllocError>
    ensures { IfOk result (λ text. string_bytes text ≡ status_text status.now) }
{
    let number = status.number();
    match status {
        Status::ScriptFault { line, kind } => {
            let kind = fault_word(*kind);
            format!(in alloc; "status {number} {line} {kind}\n")
        }
        _ => format!(in alloc; "status {number}\n"),
    }
}

fn push_log(alloc: Global, text: &mut String, log: &[LogEntry]) -> Result<(), AllocError>
    ensures { OnOk result (string_bytes text.new ≡ string_bytes text.old ++ log_text log.now) }
{
    for entry in log {
        text.push_str(log_line(alloc, entry)?.as_str())?;
    }
    Ok(())
}

fn fault_word(kind: LineFault) -> &'static str
    ensures { result.now ≡ fault_word kind }
{
    match kind {
        LineFault::Many => "many",
        LineFault::Long => "long",
        LineFault::Byte => "byte",
        LineFault::Word => "word",
        LineFault::Count => "count",
        LineFault::Late => "late",
        LineFault::Client => "client",
        LineFault::Number => "number",
        LineFault::Path => "path",
        LineFault::Content => "content",
        LineFault::Order => "order",
        LineFault::Switch => "switch",
    }
}
