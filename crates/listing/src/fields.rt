// The fields of a line: a word first, each further field after one space, and byte 10 at the end. Each step adds exactly its bytes,
// and wants room for them.
ghost use Rattle.std.specs.Prelude.{◌≡◌, ◌+◌, ◌<◌, ◌≤◌, [], ◌∷◌, ◌++◌, length, decimal};
ghost use Rattle.listing.specs.Bytes.{line_bytes};
ghost use Rattle.listing.specs.Digits.{hex_digit_of, hexadecimal};
ghost use Rattle.listing.specs.Lines.{further};

use crate::line::Line;
use arrayvec::ArrayString;
use itoa::Buffer;

fn hex_digit(digit: u64) -> char
    requires { digit < 16 }
    ensures digit { result ≡ hex_digit_of digit }
    ensures ascii { result < 128 }
{
    char::from(b"0123456789abcdef"[digit as usize])
}

impl Line {
    pub(crate) fn begin(word: &str) -> Line
        requires { length word.now ≤ 48 }
        ensures { line_bytes result ≡ word.now }
    {
        let mut text = ArrayString::new();
        text.push_str(word);
        Line { text }
    }

    pub(crate) fn add_word(&mut self, word: &str)
        requires { length (line_bytes self.old) + length word.now < 48 }
        ensures { line_bytes self.new ≡ line_bytes self.old ++ (32 ∷ word.now) }
    {
        self.text.push(' ');
        self.text.push_str(word);
    }

    pub(crate) fn add_number(&mut self, n: usize)
        requires { length (line_bytes self.old) + length (decimal n) < 48 }
        ensures { line_bytes self.new ≡ line_bytes self.old ++ (32 ∷ decimal n) }
    {
        let mut buffer = Buffer::new();
        self.add_word(buffer.format(n));
    }

    // The mask as 16 hexadecimal digits, the highest first. By hand, since the library's `hex` writes bytes, which would have to be
    // checked to be text, and a formatter, as for `{:016x}`, may fail.
    pub(crate) fn add_mask(&mut self, mask: u64)
        requires { length (line_bytes self.old) + 16 < 48 }
        ensures { line_bytes self.new ≡ line_bytes self.old ++ (32 ∷ hexadecimal mask) }
    {
        self.text.push(' ');
        for place in (0..16u32).rev() {
            self.text.push(hex_digit((mask >> (4 * place)) % 16));
        }
    }

    pub(crate) fn end(&mut self)
        requires { length (line_bytes self.old) < 48 }
        ensures { line_bytes self.new ≡ line_bytes self.old ++ further [] }
    {
        self.text.push('\n');
    }

    // The last two fields, both numbers, and the end.
    pub(crate) fn end_numbers(&mut self, first: usize, second: usize)
        requires { length (line_bytes self.old) + length (decimal first) + length (decimal second) + 3 ≤ 48 }
        ensures { line_bytes self.new ≡ line_bytes self.old ++ further (decimal first ∷ decimal second ∷ []) }
    {
        self.add_number(first);
        self.add_number(second);
        self.end();
    }
}
