ghost use Rattle.std.specs.Prelude.{◌≡◌, IfOk};
ghost use Rattle.std.specs.String.{string_bytes};
ghost use Rattle.nuc_report.specs.Answers.{done_words, mark_words, plan_words, ran_words, reply_words, scan_words, start_word, take_words, user_word, watch_words, web_reply_words};
ghost use Rattle.nuc_report.specs.Line.{behind};

use crate::reasons::{reason_word, refusal_text};
use nuc_folder::{Outcome, UserReply};
use nuc_log::{MarkReply, Reply, StartReply, TakeReply};
use nuc_server::WebReply;
use nuc_step::{DoneReply, Planned, Scanned, WatchReply};
use std::alloc::{AllocError, Global};

/// The answer to an event, each word with a space before it.
pub(crate) fn reply_text(alloc: Global, reply: &Reply) -> Result<String, AllocError>
    ensures { IfOk result (λ text. string_bytes text ≡ behind (reply_words reply.now)) }
{
    match reply {
        Reply::User(answer) => {
            let answer = user_word(*answer);
            format!(in alloc; " {answer}")
        }
        Reply::Web(answer) => web_reply_text(alloc, answer),
        Reply::Listed { changes, items } => {
            let count = items.len();
            format!(in alloc; " {changes} {count}")
        }
        Reply::Scan(answer) => scan_text(alloc, answer),
        Reply::Watch(answer) => watch_text(alloc, answer),
        Reply::Nothing => String::from_str(alloc, " nothing"),
        Reply::Pulled { entries, cursor } => format!(in alloc; " {entries} {cursor}"),
        Reply::Plan(answer) => plan_text(alloc, answer),
        Reply::Started(answer) => {
            let answer = start_word(answer);
            format!(in alloc; " {answer}")
        }
        Reply::Took(answer) => take_text(alloc, answer),
        Reply::Done(answer) => done_text(alloc, answer),
        Reply::Restarted => Ok(String::new(alloc)),
        Reply::Marked(answer) => mark_text(alloc, answer),
    }
}

fn user_word(answer: UserReply) -> &'static str
    ensures { result.now ≡ user_word answer }
{
    match answer {
        UserReply::Ok => "ok",
        UserReply::NoSuch => "nosuch",
        UserReply::NoParent => "noparent",
        UserReply::Kind => "kind",
        UserReply::Taken => "taken",
        UserReply::Cycle => "cycle",
        UserReply::Memory => "memory",
    }
}

fn web_reply_text(alloc: Global, answer: &WebReply) -> Result<String, AllocError>
    ensures { IfOk result (λ text. string_bytes text ≡ behind (web_reply_words answer.now)) }
{
    match answer {
        WebReply::Accepted(revision) => format!(in alloc; " accepted {revision}"),
        WebReply::Same => String::from_str(alloc, " same"),
        WebReply::NoSuch => String::from_str(alloc, " nosuch"),
        WebReply::NoParent => String::from_str(alloc, " refused noparent"),
        WebReply::Taken(id) => {
            let id = id.0;
            format!(in alloc; " refused taken {id}")
        }
        WebReply::Cycle => String::from_str(alloc, " refused cycle"),
        WebReply::NotEmpty => String::from_str(alloc, " refused notempty"),
        WebReply::KindChanged => String::from_str(alloc, " refused kind"),
        WebReply::Memory => String::from_str(alloc, " memory"),
    }
}

fn scan_text(alloc: Global, answer: &Scanned) -> Result<String, AllocError>
    ensures { IfOk result (λ text. string_bytes text ≡ behind (scan_words answer.now)) }
{
    match answer {
        Scanned::Changed(count) => format!(in alloc; " changed {count}"),
        Scanned::NoListing => String::from_str(alloc, " none"),
        Scanned::Stale(changes) => format!(in alloc; " stale {changes}"),
        Scanned::Bad(number) => format!(in alloc; " bad {number}"),
    }
}

fn watch_text(alloc: Global, answer: &WatchReply) -> Result<String, AllocError>
    ensures { IfOk result (λ text. string_bytes text ≡ behind (watch_words answer.now)) }
{
    match answer {
        WatchReply::Changed(id) => {
            let id = id.0;
            format!(in alloc; " changed {id}")
        }
        WatchReply::Rescan => String::from_str(alloc, " rescan"),
    }
}

fn plan_text(alloc: Global, answer: &Planned) -> Result<String, AllocError>
    ensures { IfOk result (λ text. string_bytes text ≡ behind (plan_words answer.now)) }
{
    match answer {
        Planned::Empty => String::from_str(alloc, " empty"),
        Planned::Booked(_) => String::from_str(alloc, " record"),
        Planned::Batch(ops) => {
            let count = ops.len();
            format!(in alloc; " batch {count}")
        }
        Planned::Mend(_) => String::from_str(alloc, " mend"),
        Planned::Busy(count) => format!(in alloc; " busy {count}"),
    }
}

fn start_word(answer: &StartReply) -> &'static str
    ensures { result.now ≡ start_word answer.now }
{
    match answer {
        StartReply::Ok { .. } => "ok",
        StartReply::Changed => "changed",
        StartReply::Failed => "failed",
        StartReply::NoSuchOp => "none",
    }
}

fn take_text(alloc: Global, answer: &TakeReply) -> Result<String, AllocError>
    ensures { IfOk result (λ text. string_bytes text ≡ behind (take_words answer.now)) }
{
    match answer {
        TakeReply::Folder(ran) => ran_text(alloc, ran.outcome, ran.made),
        TakeReply::Accepted(revision) => format!(in alloc; " accepted {revision}"),
        TakeReply::Refused(refusal) => {
            let reason = refusal_text(alloc, refusal)?;
            format!(in alloc; " refused{reason}")
        }
        TakeReply::NoSuchOp => String::from_str(alloc, " none"),
    }
}

/// What came of the folder's calls; `made` counts those that did what they were asked for.
fn ran_text(alloc: Global, outcome: Outcome, made: u32) -> Result<String, AllocError>
    ensures { IfOk result (λ text. string_bytes text ≡ behind (ran_words outcome made)) }
{
    match outcome {
        Outcome::Ok => String::from_str(alloc, " ok"),
        Outcome::Made(key) => {
            let key = key.0;
            format!(in alloc; " made {key}")
        }
        Outcome::Changed => String::from_str(alloc, " changed"),
        Outcome::Taken => String::from_str(alloc, " taken"),
        Outcome::NotEmpty => String::from_str(alloc, " notempty"),
        Outcome::Failed => format!(in alloc; " failed {made}"),
        Outcome::Memory => String::from_str(alloc, " memory"),
    }
}

fn done_text(alloc: Global, answer: &DoneReply) -> Result<String, AllocError>
    ensures { IfOk result (λ text. string_bytes text ≡ behind (done_words answer.now)) }
{
    match answer {
        DoneReply::Applied => String::from_str(alloc, " applied"),
        DoneReply::Stale => String::from_str(alloc, " stale"),
        DoneReply::Dropped(reason) => {
            let reason = reason_word(*reason);
            format!(in alloc; " dropped {reason}")
        }
        DoneReply::NoSuchOp => String::from_str(alloc, " none"),
    }
}

fn mark_text(alloc: Global, answer: &MarkReply) -> Result<String, AllocError>
    ensures { IfOk result (λ text. string_bytes text ≡ behind (mark_words answer.now)) }
{
    match answer {
        MarkReply::Quiet => String::from_str(alloc, " quiet"),
        MarkReply::Stalled(count) => format!(in alloc; " stalled {count}"),
    }
}
