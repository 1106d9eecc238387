ghost use Rattle.std.specs.Prelude.{◌≡◌, ◌==◌, map, IfOk};
ghost use Rattle.nuc_script.specs.Meaning.{Gives};
ghost use Rattle.nuc_script.specs.Words.{words_of, one_word, two_words, cut_word, is_comment};

use crate::LineFault;
use crate::cut::cut;
use crate::fault::Stop;
use std::alloc::{AllocError, Global};

/// What stands between the spaces of a line, but for what is empty.
pub(crate) fn words_of(alloc: Global, line: &[u8]) -> Result<Vec<&[u8]>, AllocError>
    ensures { IfOk result (λ words. map (λ word. word.now) words.items ≡ words_of line.now) }
{
    let mut words = Vec::new(alloc);
    let mut rest = Some(line);
    while let Some(text) = rest {
        let (word, behind) = cut(text, b' ');
        if !word.is_empty() {
            words.push(word)?;
        }
        rest = behind;
    }
    Ok(words)
}

pub(crate) fn is_comment(word: &[u8]) -> bool
    ensures { result ≡ is_comment word.now }
{
    match word.first() {
        Some(first) => *first == b'#',
        None => false,
    }
}

/// The word, where it is one.
pub(crate) fn one_word<'a>(words: &[&'a [u8]]) -> Result<&'a [u8], Stop>
    ensures { Gives (λ word. word.now) result (one_word (map (λ word. word.now) words.now)) }
{
    match words {
        [word] => Ok(*word),
        _ => Err(Stop::Fault(LineFault::Count)),
    }
}

/// The words, where they are two.
pub(crate) fn two_words<'a>(words: &[&'a [u8]]) -> Result<(&'a [u8], &'a [u8]), Stop>
    ensures { Gives (λ both. (both.0.now, both.1.now)) result (two_words (map (λ word. word.now) words.now)) }
{
    match words {
        [first, second] => Ok((*first, *second)),
        _ => Err(Stop::Fault(LineFault::Count)),
    }
}

/// The first word and the others.
pub(crate) fn cut_word<'a, 'b>(words: &'b [&'a [u8]]) -> Result<(&'a [u8], &'b [&'a [u8]]), Stop>
    ensures { Gives (λ cut. (cut.0.now, map (λ word. word.now) cut.1.now)) result (cut_word (map (λ word. word.now) words.now)) }
{
    match words.split_first() {
        Some((word, others)) => Ok((*word, others)),
        None => Err(Stop::Fault(LineFault::Count)),
    }
}
