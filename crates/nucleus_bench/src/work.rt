use crate::fault::Fault;
use crate::{committing, editing, journaling, placing, storing};
use std::alloc::Global;

/// The most that is done of a work.
const MOST: u64 = 4_000_000;

/// A kind of work of which so many are done.
#[derive(Clone, Copy, Debug, PartialEq, Eq)]
pub(crate) enum Work {
    Store,
    Journal,
    Edits,
    Tree,
    Commits,
}

impl Work {
    pub(crate) const ALL: [Work; 5] = [
        Work::Store,
        Work::Journal,
        Work::Edits,
        Work::Tree,
        Work::Commits,
    ];

    pub(crate) fn named(word: &str) -> Option<Work> {
        match word {
            "store" => Some(Work::Store),
            "journal" => Some(Work::Journal),
            "edits" => Some(Work::Edits),
            "tree" => Some(Work::Tree),
            "commits" => Some(Work::Commits),
            _ => None,
        }
    }

    /// Does it so many times. What it came to, in a line.
    pub(crate) fn run(self, alloc: Global, count: u64) -> Result<String, Fault> {
        match self {
            Work::Store => storing::store(alloc, count),
            Work::Journal => journaling::journal(alloc, count),
            Work::Edits => editing::edits(alloc, count),
            Work::Tree => placing::tree(alloc, count),
            Work::Commits => committing::commits(alloc, count),
        }
    }
}

/// How many a word asks for.
pub(crate) fn count_of(word: &str) -> Result<u64, Fault> {
    match word.parse() {
        Ok(count) if count > 0 && count <= MOST => Ok(count),
        _ => Err(Fault::Count),
    }
}
