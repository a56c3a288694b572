// A text that goes on piece by piece, in an array.
ghost use Rattle.std.specs.Prelude.{◌≡◌, ℕ, ◌+◌, ◌*◌, ◌≤◌, List, [], ◌++◌, length, take};
ghost use Rattle.text.specs.Text.{decimal, row_text, rows_text};

use crate::{put_decimal, put_row, put_rows, put_word};
use std::marker::Model;

// The bytes put so far and how many they are, with room for N. A function that puts a piece from an index on puts it behind the text by
// `text.end = put(&mut text.bytes, text.end, ..)`; that the end stays within N is proved there.
#[derive(Drop)]
pub struct TextBuffer<const N: usize> {
    pub bytes: [u8; N],
    pub end: usize,
}

// Clauses see the text.
impl<const N: usize> Model for TextBuffer<N> {
    ghost Value = { List ℕ };

    ghost view = { λ buffer. take buffer.end buffer.bytes };

    ghost invariant = { λ buffer. buffer.end ≤ N };
}

impl<const N: usize> TextBuffer<N> {
    // A buffer with no text.
    pub fn new() -> Self
        ensures { result ≡ [] }
    {
        TextBuffer {
            bytes: [0; N],
            end: 0,
        }
    }

    // The text.
    pub fn as_bytes(&self) -> &[u8]
        ensures { result.now ≡ self.now }
    {
        &self.bytes[..self.end]
    }

    // Lets the text go.
    pub fn clear(&mut self)
        ensures { self.new ≡ [] }
    {
        self.end = 0;
    }

    // Puts a word.
    pub fn put_word(&mut self, word: &[u8])
        requires { length self.old + length word.now ≤ N }
        ensures { self.new ≡ self.old ++ word.now }
    {
        self.end = put_word(&mut self.bytes, self.end, word);
    }

    // Puts a number's digits.
    pub fn put_decimal(&mut self, n: u64)
        requires { length self.old + 20 ≤ N }
        ensures put { self.new ≡ self.old ++ decimal n }
        ensures upper_bound { length self.new ≤ length self.old + 20 }
    {
        self.end = put_decimal(&mut self.bytes, self.end, n);
    }

    // Puts a row of numbers as a line.
    pub fn put_row(&mut self, numbers: &[i32])
        requires { length self.old + 12 * length numbers.now + 21 ≤ N }
        ensures put { self.new ≡ self.old ++ row_text numbers.now }
        ensures upper_bound { length self.new ≤ length self.old + 12 * length numbers.now + 1 }
    {
        self.end = put_row(&mut self.bytes, self.end, numbers);
    }

    // Puts a plane of numbers, a line for each row.
    pub fn put_rows(&mut self, numbers: &[i32], width: usize, height: usize)
        requires numbers_len { length numbers.now ≡ width * height }
        requires height_in_bounds { length self.old + 12 * (width * height) + height + 21 ≤ N }
        ensures put { self.new ≡ self.old ++ rows_text width height numbers.now }
        ensures upper_bound { length self.new ≤ length self.old + 12 * (width * height) + height }
    {
        self.end = put_rows(&mut self.bytes, self.end, numbers, width, height);
    }
}
