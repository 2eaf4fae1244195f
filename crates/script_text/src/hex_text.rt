//! Puts bytes as hexadecimal text.

ghost use Rattle.std.specs.Prelude.{◌≡◌, ◌++◌, OnOk};
ghost use Rattle.script_text.specs.HexText.{hex_text, SaysBytes};

use schema::Memory;

/// The digits, each at the index of its value.
const DIGITS: [u8; 16] = *b"0123456789abcdef";

/// Puts bytes at the end of a text, as digits in lower case, two for each byte.
pub fn put_hex(out: &mut Vec<u8>, bytes: &[u8]) -> Result<(), Memory>
    ensures text { OnOk result (out.new.items ≡ out.old.items ++ hex_text bytes.now) }
    // A reader of that text reads these bytes.
    ensures says { SaysBytes (hex_text bytes.now) bytes.now }
{
    for byte in bytes {
        let high = DIGITS[(*byte / 16) as usize];
        let low = DIGITS[(*byte % 16) as usize];
        out.extend_from_slice(&[high, low])?;
    }
    Ok(())
}
