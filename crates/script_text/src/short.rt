//! Short texts that are built from their end.

ghost use Rattle.std.specs.Prelude.{◌≡◌, ◌+◌, ◌≤◌, ◌++◌, [], length, OnOk};
ghost use Rattle.std.specs.Fmt.{decimal, signed_decimal};

use itoa::write_digits;
use schema::Memory;
use std::marker::Model;

/// The most bytes of a short text.
const ROOM: usize = 80;

/// A short text. It is built from its end, and put at the end of another text by one call.
#[derive(Drop)]
pub struct Short {
    bytes: [u8; ROOM],
    /// The index at which the text begins. It goes on to the end of the bytes.
    start: usize,
}

impl Model for Short {
    ghost use Rattle.std.specs.Prelude.{List, ℕ, ◌≤◌, drop};

    ghost Value = { List ℕ };

    ghost view = { λ t. drop t.start t.bytes };

    ghost invariant = { λ t. t.start ≤ 80 };
}

impl Short {
    /// A text without bytes.
    pub fn new() -> Short
        ensures { result ≡ [] }
    {
        Short {
            bytes: [0; ROOM],
            start: ROOM,
        }
    }

    /// Puts a text in front.
    #[inline(always)]
    pub fn put(&mut self, text: &str)
        requires { length text.now + length self.old ≤ 80 }
        ensures { self.new ≡ text.now ++ self.old }
    {
        let start = self.start - text.len();
        self.bytes[start..self.start].copy_from_slice(text.as_bytes());
        self.start = start;
    }

    /// Puts a number in front.
    #[inline(always)]
    pub fn put_number(&mut self, n: u64)
        requires { 20 + length self.old ≤ 80 }
        ensures text { self.new ≡ decimal n ++ self.old }
        ensures few { length self.new ≤ 20 + length self.old }
    {
        self.start = write_digits(n, &mut self.bytes, self.start);
    }

    /// Puts a number in front, with its sign if it is negative.
    #[inline(always)]
    pub fn put_signed(&mut self, n: i64)
        requires { 21 + length self.old ≤ 80 }
        ensures text { self.new ≡ signed_decimal n ++ self.old }
        ensures few { length self.new ≤ 21 + length self.old }
    {
        self.put_number(n.unsigned_abs());
        if n < 0 {
            self.put("-");
        }
    }

    /// Puts it at the end of another text.
    pub fn put_into(&self, out: &mut Vec<u8>) -> Result<(), Memory>
        ensures { OnOk result (out.new.items ≡ out.old.items ++ self.now) }
    {
        Ok(out.extend_from_slice(&self.bytes[self.start..])?)
    }
}
