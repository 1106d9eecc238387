ghost use Rattle.std.specs.Prelude.{◌≡◌, ◌<◌, ◌∷◌, [], length, IfOk, IfSome, MatchOption};
ghost use Rattle.nuc_script.specs.Escapes.{hex_value, byte_of, escape, unescaped};

use std::alloc::{AllocError, Global};

/// The bytes with their escapes undone.
pub(crate) fn unescape(alloc: Global, bytes: &[u8]) -> Result<Vec<u8>, AllocError>
    ensures { IfOk result (λ plain. plain.items ≡ unescaped bytes.now) }
{
    let mut plain = Vec::new(alloc);
    let mut rest = bytes;
    while let Some((byte, behind)) = first_byte(rest) {
        plain.push(byte)?;
        rest = behind;
    }
    Ok(plain)
}

/// The first byte, its escape undone, and what stands behind it.
fn first_byte(bytes: &[u8]) -> Option<(u8, &[u8])>
    ensures { MatchOption result (bytes.now ≡ []) (λ cut. (unescaped bytes.now ≡ cut.0 ∷ unescaped cut.1.now) × (length cut.1.now < length bytes.now)) }
{
    if let [first, high, low, behind @ ..] = bytes {
        if let Some(byte) = escape(*first, *high, *low) {
            return Some((byte, behind));
        }
    }
    match bytes {
        [] => None,
        [first, behind @ ..] => Some((*first, behind)),
    }
}

/// The byte that these three stand for, where they are an escape.
fn escape(first: u8, high: u8, low: u8) -> Option<u8>
    ensures { result ≡ escape first high low }
{
    if first != b'%' {
        return None;
    }
    byte_of(hex_value(high), hex_value(low))
}

/// The byte that two hexadecimal digits are.
pub(crate) fn byte_of(high: Option<u8>, low: Option<u8>) -> Option<u8>
    requires high { IfSome high (λ value. value < 16) }
    requires low { IfSome low (λ value. value < 16) }
    ensures { result ≡ byte_of high low }
{
    match (high, low) {
        (Some(high), Some(low)) => Some(high * 16 + low),
        _ => None,
    }
}

/// The value of a hexadecimal digit, of either case.
pub(crate) fn hex_value(digit: u8) -> Option<u8>
    ensures value { result ≡ hex_value digit }
    ensures small { IfSome result (λ value. value < 16) }
{
    match digit {
        b'0'..=b'9' => Some(digit - b'0'),
        b'A'..=b'F' => Some(digit - b'A' + 10),
        b'a'..=b'f' => Some(digit - b'a' + 10),
        _ => None,
    }
}
