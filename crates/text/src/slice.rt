// A text that goes on piece by piece, in the bytes of a caller.
ghost use Rattle.std.specs.Prelude.{◌≡◌, ◌+◌, ◌*◌, ◌≤◌, length};
ghost use Rattle.text.specs.Slices.{Extended};
ghost use Rattle.text.specs.Text.{decimal, rows_text};

use crate::{put_decimal, put_rows, put_word};

// The caller's bytes, and how many of them are text.
#[derive(Drop)]
pub struct TextSlice<'a> {
    pub bytes: &'a mut [u8],
    pub end: usize,
}

impl TextSlice<'_> {
    // Puts a word.
    pub fn put_word(&mut self, word: &[u8])
        requires { self.old.end + length word.now ≤ length self.old.bytes.now }
        ensures { Extended self.old word.now self.new }
    {
        self.end = put_word(self.bytes, self.end, word);
    }

    // Puts a number's digits.
    pub fn put_decimal(&mut self, n: u64)
        requires { self.old.end + 20 ≤ length self.old.bytes.now }
        ensures put { Extended self.old (decimal n) self.new }
        ensures upper_bound { self.new.end ≤ self.old.end + 20 }
    {
        self.end = put_decimal(self.bytes, self.end, n);
    }

    // Puts a plane of numbers, a line for each row.
    pub fn put_rows(&mut self, numbers: &[i32], width: usize, height: usize)
        requires numbers_len { length numbers.now ≡ width * height }
        requires height_in_bounds { self.old.end + 12 * (width * height) + height + 21 ≤ length self.old.bytes.now }
        ensures put { Extended self.old (rows_text width height numbers.now) self.new }
        ensures upper_bound { self.new.end ≤ self.old.end + 12 * (width * height) + height }
    {
        self.end = put_rows(self.bytes, self.end, numbers, width, height);
    }
}
