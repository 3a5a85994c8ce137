ghost use Rattle.std.specs.Prelude.{◌≡◌, ◌+◌, ◌≤◌, [], ◌++◌, length, decimal};
ghost use Rattle.book_listing.specs.Text.{text_line, until_zero};

use crate::ROOM;
use arrayvec::ArrayVec;
use itoa::Buffer;
use std::marker::Model;

/// A text that grows at its end. A contract sees its bytes.
#[derive(Drop)]
pub(crate) struct Text {
    written: ArrayVec<u8, ROOM>,
}

impl Model for Text {
    ghost use Rattle.std.specs.Prelude.{ℕ, List};

    ghost Value = { List ℕ };

    ghost view = { λ text. text.written.items };
}

impl Text {
    pub(crate) fn new() -> Text
        ensures { result ≡ [] }
    {
        Text {
            written: ArrayVec::new(),
        }
    }

    pub(crate) fn bytes(&self) -> &[u8]
        ensures are_the_text { result.now ≡ self.now }
        ensures fit { length self.now ≤ 364 }
    {
        self.written.as_slice()
    }

    fn add(&mut self, bytes: &[u8])
        requires { length self.old + length bytes.now ≤ 364 }
        ensures { self.new ≡ self.old ++ bytes.now }
    {
        let _room = self.written.try_extend_from_slice(bytes);
    }

    /// A first part, a space, a number and the end of the line.
    pub(crate) fn line(&mut self, first: &[u8], n: u64)
        requires { length self.old + length (text_line first.now n) ≤ 364 }
        ensures { self.new ≡ self.old ++ text_line first.now n }
    {
        let mut figures = Buffer::new();
        self.add(first);
        self.add(b" ");
        self.add(figures.format(n).as_bytes());
        self.add(b"\n");
    }

    /// A line of two numbers.
    pub(crate) fn numbers(&mut self, m: u64, n: u64)
        requires { length self.old + length (text_line (decimal m) n) ≤ 364 }
        ensures { self.new ≡ self.old ++ text_line (decimal m) n }
    {
        let mut figures = Buffer::new();
        self.line(figures.format(m).as_bytes(), n);
    }
}

/// A key up to its first zero.
pub(crate) fn word_of(key: &[u8]) -> &[u8]
    ensures { result.now ≡ until_zero key.now }
{
    match key.iter().position(|b| *b == 0) {
        Some(end) => &key[..end],
        None => key,
    }
}
