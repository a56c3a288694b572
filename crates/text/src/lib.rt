// Text put into bytes, piece by piece, and the bytes of an input. A function puts a piece into a caller's bytes, of any length, from an index on,
// and answers the index after it. A slice keeps such bytes and their index together; a buffer has bytes of its own.
#![tactic(auto)]

mod buffer;
mod input;
mod numbers;
mod slice;
mod words;

pub use buffer::TextBuffer;
pub use input::read_full;
pub use numbers::{put_decimal, put_row, put_rows};
pub use slice::TextSlice;
pub use words::put_word;
