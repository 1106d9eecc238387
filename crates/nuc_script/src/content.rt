ghost use Rattle.std.specs.Prelude.{◌≡◌, IfOk};
ghost use Rattle.nuc_script.specs.Contents.{content_of, hex_byte, repeated};

use crate::cut::cut;
use crate::escape::{byte_of, hex_value};
use crate::number::number_within;
use nuc_hash::Filling;
use sqlite_items::Items;
use std::alloc::{AllocError, Global};

/// The most bytes of a file.
const MOST_BYTES: u64 = 67_108_864;

/// The content that the bytes are, if they are one: `=` and bytes, or `*N:HH`.
pub(crate) fn content_of(alloc: Global, bytes: &[u8]) -> Result<Option<Filling>, AllocError>
    ensures { IfOk result (λ found. found ≡ content_of bytes.now) }
{
    let Some((first, text)) = bytes.split_first() else {
        return Ok(None);
    };
    match *first {
        b'=' => Ok(Some(Filling::Given(Items::from_slice(alloc, text)?))),
        b'*' => Ok(repeated(text)),
        _ => Ok(None),
    }
}

/// Reads `N:HH`.
fn repeated(text: &[u8]) -> Option<Filling>
    ensures { result ≡ repeated text.now }
{
    let (count, behind) = cut(text, b':');
    let count = number_within(count, 0, MOST_BYTES)?;
    let byte = hex_byte(behind?)?;
    Some(Filling::Repeat { count, byte })
}

/// The byte that two hexadecimal digits are.
fn hex_byte(digits: &[u8]) -> Option<u8>
    ensures { result ≡ hex_byte digits.now }
{
    match digits {
        [high, low] => byte_of(hex_value(*high), hex_value(*low)),
        _ => None,
    }
}
