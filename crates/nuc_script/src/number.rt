ghost use Rattle.std.specs.Prelude.{◌≡◌, ◌≤◌, IfSome};
ghost use Rattle.nuc_script.specs.Numbers.{number_of, within};

/// The number that the digits make, where it is in the range.
pub(crate) fn number_within(word: &[u8], least: u64, most: u64) -> Option<u64>
    ensures value { result ≡ within least most (number_of word.now) }
    ensures small { IfSome result (λ number. number ≤ most) }
{
    if word.is_empty() {
        return None;
    }
    let mut number = 0u64;
    for byte in word {
        if !byte.is_ascii_digit() {
            return None;
        }
        let digit = u64::from(*byte - b'0');
        // Further digits make no number smaller.
        number = number.checked_mul(10)?.checked_add(digit)?;
        if number > most {
            return None;
        }
    }
    if number < least {
        return None;
    }
    Some(number)
}
