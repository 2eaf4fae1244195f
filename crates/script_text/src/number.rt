//! Numbers as a script writes them.

ghost use Rattle.std.specs.Prelude.{◌≡◌, ◌^◌, ◌∷◌, pos, option_map};
ghost use Rattle.script_text.specs.Number.{number, integer, digits_below, ReadsNumber, ReadsInteger};

/// The number that the text gives: decimal digits without a leading zero. `None` for any other text, and for a number
/// that does not fit the type.
pub fn u8_of(text: &[u8]) -> Option<u8>
    ensures exact { result ≡ number (2 ^ 8) text.now }
    ensures reads { ReadsNumber (2 ^ 8) text.now result }
{
    u8::try_from(u64_of(text)?).ok()
}

/// Like `u8_of`, but for 16 bits.
pub fn u16_of(text: &[u8]) -> Option<u16>
    ensures exact { result ≡ number (2 ^ 16) text.now }
    ensures reads { ReadsNumber (2 ^ 16) text.now result }
{
    u16::try_from(u64_of(text)?).ok()
}

/// Like `u8_of`, but for 64 bits.
pub fn u64_of(text: &[u8]) -> Option<u64>
    ensures exact { result ≡ number (2 ^ 64) text.now }
    ensures reads { ReadsNumber (2 ^ 64) text.now result }
{
    let (first, rest) = text.split_first()?;
    if *first != b'0' {
        value_of(text)
    } else if rest.is_empty() {
        Some(0)
    } else {
        None
    }
}

/// The number that the digits give, with or without leading zeros. `None` if a byte is not a digit, or the number does
/// not fit the type. Each digit is checked as it is read.
fn value_of(digits: &[u8]) -> Option<u64>
    ensures { result ≡ digits_below (2 ^ 64) digits.now }
{
    let mut value: u64 = 0;
    for digit in digits {
        if !digit.is_ascii_digit() {
            return None;
        }
        value = value.checked_mul(10)?.checked_add((*digit - b'0') as u64)?;
    }
    Some(value)
}

/// The signed number that the text gives: decimal digits without a leading zero, after `-` if it is negative. `None`
/// for any other text, also for `-0`, and for a number that does not fit the type.
pub fn i64_of(text: &[u8]) -> Option<i64>
    ensures exact { result ≡ integer text.now }
    ensures reads { ReadsInteger text.now result }
{
    let (first, digits) = text.split_first()?;
    if *first == b'-' {
        negative_of(digits)
    } else {
        positive_of(text)
    }
}

/// Like `i64_of`, for the text of these digits after a `-`.
fn negative_of(digits: &[u8]) -> Option<i64>
    ensures { result ≡ integer (45 ∷ digits.now) }
{
    let size = u64_of(digits)?;
    if size == 0 {
        None
    } else {
        0i64.checked_sub_unsigned(size)
    }
}

/// Like `i64_of`, for a text without a sign.
fn positive_of(text: &[u8]) -> Option<i64>
    ensures { result ≡ option_map pos (number (2 ^ 63) text.now) }
{
    i64::try_from(u64_of(text)?).ok()
}
