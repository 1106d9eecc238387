ghost use Rattle.std.specs.Prelude.{◌≡◌, ◌++◌, ◌∷◌, [], ◌/◌, ◌%◌, ◌<◌, IfOk, OnOk, true};
ghost use Rattle.std.specs.String.{string_bytes};
ghost use Rattle.nuc_script.specs.Text.{content_text, escape_text, escaped, hex_digit, is_plain, path_text, switch_text};

use nuc_base::Path;
use nuc_hash::Filling;
use std::alloc::{AllocError, Global};

/// A path in the strict form: a `/` before each name, with escapes.
pub fn path_text(alloc: Global, path: &Path) -> Result<String, AllocError>
    ensures { IfOk result (λ text. string_bytes text ≡ path_text path.now) }
{
    let mut text = String::new(alloc);
    for name in path.names.as_slice() {
        text.push('/')?;
        push_escaped(&mut text, name.bytes())?;
    }
    Ok(text)
}

/// A content in the strict form: in the form in which it was given, with escapes.
pub fn content_text(alloc: Global, content: &Filling) -> Result<String, AllocError>
    ensures { IfOk result (λ text. string_bytes text ≡ content_text content.now) }
{
    match content {
        Filling::Given(bytes) => {
            let mut text = String::from_str(alloc, "=")?;
            push_escaped(&mut text, bytes.as_slice())?;
            Ok(text)
        }
        Filling::Repeat { count, byte } => {
            let mut text = format!(in alloc; "*{count}:")?;
            push_digits(&mut text, *byte)?;
            Ok(text)
        }
    }
}

/// The word for a bit that is set, or isn't.
pub fn switch_text(on: bool) -> &'static str
    ensures { result.now ≡ switch_text on }
{
    if on { "on" } else { "off" }
}

/// Pushes bytes as they are printed: those from `!` to `~` but `%` as they are, each other one as `%` and two digits.
pub fn push_escaped(text: &mut String, bytes: &[u8]) -> Result<(), AllocError>
    ensures { OnOk result (string_bytes text.new ≡ string_bytes text.old ++ escaped bytes.now) }
{
    for byte in bytes {
        push_byte(text, *byte)?;
    }
    Ok(())
}

fn push_byte(text: &mut String, byte: u8) -> Result<(), AllocError>
    ensures { OnOk result (string_bytes text.new ≡ string_bytes text.old ++ escape_text byte) }
{
    if is_plain(byte) {
        return text.push(char::from(byte));
    }
    text.push('%')?;
    push_digits(text, byte)
}

/// Pushes the two digits of a byte.
fn push_digits(text: &mut String, byte: u8) -> Result<(), AllocError>
    ensures { OnOk result (string_bytes text.new ≡ string_bytes text.old ++ hex_digit (byte / 16) ∷ hex_digit (byte % 16) ∷ []) }
{
    text.push(hex_digit(byte / 16))?;
    text.push(hex_digit(byte % 16))
}

fn is_plain(byte: u8) -> bool
    ensures value { result ≡ is_plain byte }
    ensures ascii { result ≡ true → byte < 128 }
{
    matches!(byte, b'!'..=b'~') && byte != b'%'
}

fn hex_digit(value: u8) -> char
    requires { value < 16 }
    ensures value { result ≡ hex_digit value }
    ensures ascii { result < 128 }
{
    char::from(if value < 10 {
        b'0' + value
    } else {
        b'A' - 10 + value
    })
}
