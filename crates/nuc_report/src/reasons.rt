ghost use Rattle.std.specs.Prelude.{◌≡◌, IfOk};
ghost use Rattle.std.specs.String.{string_bytes};
ghost use Rattle.nuc_report.specs.Line.{behind};
ghost use Rattle.nuc_report.specs.Reasons.{outcome_word, reason_word, refusal_word, refusal_words};

use nuc_folder::Outcome;
use nuc_hash::hash_text;
use nuc_server::Refusal;
use nuc_step::Reason;
use std::alloc::{AllocError, Global};

/// Why an operation was dropped, in one word.
pub(crate) fn reason_word(reason: Reason) -> &'static str
    ensures { result.now ≡ reason_word reason }
{
    match reason {
        Reason::Folder(outcome) => outcome_word(outcome),
        Reason::Server(refusal) => refusal_word(refusal),
    }
}

fn outcome_word(outcome: Outcome) -> &'static str
    ensures { result.now ≡ outcome_word outcome }
{
    match outcome {
        Outcome::Ok => "ok",
        Outcome::Made(_) => "made",
        Outcome::Changed => "changed",
        Outcome::Taken => "taken",
        Outcome::NotEmpty => "notempty",
        Outcome::Failed => "failed",
        Outcome::Memory => "memory",
    }
}

fn refusal_word(refusal: Refusal) -> &'static str
    ensures { result.now ≡ refusal_word refusal }
{
    match refusal {
        Refusal::Stale(_) => "stale",
        Refusal::KindChanged => "kind",
        Refusal::NoParent => "noparent",
        Refusal::Taken(_) => "taken",
        Refusal::Cycle => "cycle",
        Refusal::NotEmpty => "notempty",
        Refusal::NoBlock(_) => "noblock",
    }
}

/// Why a commit was refused, with the revision, the holder or the digest that belongs to it; each word with a space before it.
pub(crate) fn refusal_text(alloc: Global, refusal: &Refusal) -> Result<String, AllocError>
    ensures { IfOk result (λ text. string_bytes text ≡ behind (refusal_words refusal.now)) }
{
    match refusal {
        Refusal::Stale(revision) => format!(in alloc; " stale {revision}"),
        Refusal::Taken(holder) => {
            let holder = holder.0;
            format!(in alloc; " taken {holder}")
        }
        Refusal::NoBlock(digest) => {
            let digest = hash_text(alloc, digest)?;
            format!(in alloc; " noblock {digest}")
        }
        Refusal::KindChanged => String::from_str(alloc, " kind"),
        Refusal::NoParent => String::from_str(alloc, " noparent"),
        Refusal::Cycle => String::from_str(alloc, " cycle"),
        Refusal::NotEmpty => String::from_str(alloc, " notempty"),
    }
}
