// What the programs that run stored vectors share: numbers of the input, pieces of the lines of the output, and planes that hold something before a
// call.
#![tactic(auto)]

ghost use Rattle.std.specs.Prelude.{◌≡◌, false, ◌+◌, ◌*◌, ◌++◌, ◌≤◌, ◌<◌, length, IfOk, OnOk};
ghost use Rattle.std.specs.Io.KnownBytes.{Appends};
ghost use Rattle.base.specs.Fill.{fill};
ghost use Rattle.text.specs.Put.{Put};
ghost use Rattle.text.specs.Text.{row_text};
ghost use Rattle.vector_io.specs.Lines.{named, job_text, answer_text};

use component::parameters::{Answer, Parameters};
use std::io::Write;
use text::{TextBuffer, put_decimal, put_word};

// Room for a line that says what a job is and what it answers.
pub const LINE_ROOM: usize = 4096;

// Room for a row of at most 4,096 numbers as a line.
pub const ROW_ROOM: usize = 65536;

// The number of two bytes, the high one first.
// As in contents::bytes, which reads a recording and is not asked here; each is one call of the library.
pub fn two_bytes(high: u8, low: u8) -> u32
    ensures { (result ≡ high * 256 + low) × (result < 65536) }
{
    u32::from(u16::from_be_bytes([high, low]))
}

// Puts one number into the whole plane.
pub fn fill_plane(plane: &mut [i32], number: i32)
    ensures { plane.new ≡ fill plane.old 0 (length plane.old) (λ _. number) }
{
    plane.fill(number);
}

// Says that the input is bad, and answers that there is no other job.
pub fn bad_input(rt: &impl Print) -> std::io::Result<bool>
    ensures { IfOk result (λ more. more ≡ false) }
{
    rt.write_all(b"bad input\n")?;
    Ok(false)
}

// Puts a name and its number. As in `text`, a piece is put from an index on, and the answer is the index after it.
pub fn put_named(text: &mut [u8], at: usize, name: &[u8], number: u64) -> usize
    requires { at + length name.now + 20 ≤ length text.old }
    ensures put { Put at text.old (named name.now number) result text.new }
    ensures upper_bound { result ≤ at + length name.now + 20 }
{
    let after = put_word(text, at, name);
    put_decimal(text, after, number)
}

// Puts what a job is.
#[tactic(auto, unfolding(crate::specs::Lines::job_text, text::specs::Text::ascii))]
pub fn put_job(text: &mut [u8], at: usize, p: Parameters) -> usize
    requires { at + 97 ≤ length text.old }
    ensures put { Put at text.old (job_text p) result text.new }
    ensures upper_bound { result ≤ at + 97 }
{
    let width = put_decimal(text, at, u64::from(p.width));
    let height = put_named(text, width, b"x", u64::from(p.height));
    let depth = put_named(text, height, b" depth ", u64::from(p.depth));
    put_named(text, depth, b" wavelet ", u64::from(p.wavelet))
}

// Puts what a job answers.
#[tactic(auto, unfolding(crate::specs::Lines::answer_text, text::specs::Text::ascii))]
pub fn put_answer(text: &mut [u8], at: usize, answer: Answer) -> usize
    requires { at + 56 ≤ length text.old }
    ensures put { Put at text.old (answer_text answer) result text.new }
    ensures upper_bound { result ≤ at + 56 }
{
    let status = put_named(text, at, b": status ", u64::from(answer.status));
    put_named(text, status, b" place ", answer.place as u64)
}

// Puts a name and its number behind a text.
pub fn append_named<const N: usize>(text: &mut TextBuffer<N>, name: &[u8], number: u64)
    requires { length text.old + length name.now + 20 ≤ N }
    ensures put { text.new ≡ text.old ++ named name.now number }
    ensures upper_bound { length text.new ≤ length text.old + length name.now + 20 }
{
    text.end = put_named(&mut text.bytes, text.end, name, number);
}

// Puts what a job is behind a text.
pub fn append_job<const N: usize>(text: &mut TextBuffer<N>, p: Parameters)
    requires { length text.old + 97 ≤ N }
    ensures put { text.new ≡ text.old ++ job_text p }
    ensures upper_bound { length text.new ≤ length text.old + 97 }
{
    text.end = put_job(&mut text.bytes, text.end, p);
}

// Puts what a job answers behind a text.
pub fn append_answer<const N: usize>(text: &mut TextBuffer<N>, answer: Answer)
    requires { length text.old + 56 ≤ N }
    ensures put { text.new ≡ text.old ++ answer_text answer }
    ensures upper_bound { length text.new ≤ length text.old + 56 }
{
    text.end = put_answer(&mut text.bytes, text.end, answer);
}

// Writes a row as a line.
pub fn print_row<W: Write>(to: &mut W, row: &[i32]) -> std::io::Result<()>
    requires { length row.now ≤ 4096 }
    ensures { OnOk result (Appends (W.contents to.old) (W.contents to.new) (row_text row.now)) }
{
    let mut line = TextBuffer::<ROW_ROOM>::new();
    line.put_row(row);
    to.write_all(line.as_bytes())
}
