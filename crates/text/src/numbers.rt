// Numbers as text: in decimal, with a sign, and in rows. A contract says which bytes are put; of what `Display` and `write!` put none can.
ghost use Rattle.std.specs.Prelude.{◌++◌, ◌≡◌, ◌+◌, ◌*◌, ◌≤◌, length};
ghost use Rattle.text.specs.Put.{Put};
ghost use Rattle.text.specs.Text.{ascii, decimal, signed_text, spaced, row_text, rows_text};

use crate::put_word;

// Puts a number's digits.
pub fn put_decimal(text: &mut [u8], at: usize, n: u64) -> usize
    requires { at + 20 ≤ length text.old }
    ensures put { Put at text.old (decimal n) result text.new }
    ensures upper_bound { result ≤ at + 20 }
{
    let mut digits = [0u8; 20];
    let count = io::decimal(n, &mut digits);
    put_word(text, at, &digits[..count])
}

// Puts a number, with a minus sign where it is negative.
#[tactic(auto, unfolding(crate::specs::Text::ascii, crate::specs::Text::signed_text))]
fn put_signed(text: &mut [u8], at: usize, number: i32) -> usize
    requires { at + 21 ≤ length text.old }
    ensures put { Put at text.old (signed_text number) result text.new }
    ensures upper_bound { result ≤ at + 11 }
{
    let digits = if number < 0 {
        put_word(text, at, b"-")
    } else {
        at
    };
    put_decimal(text, digits, u64::from(number.unsigned_abs()))
}

// Puts a space and a number.
#[tactic(auto, unfolding(crate::specs::Text::ascii))]
fn put_next(text: &mut [u8], at: usize, number: i32) -> usize
    requires { at + 22 ≤ length text.old }
    ensures put { Put at text.old (ascii " " ++ signed_text number) result text.new }
    ensures upper_bound { result ≤ at + 12 }
{
    let after = put_word(text, at, b" ");
    put_signed(text, after, number)
}

// Puts each number with a space before it.
fn put_spaced(text: &mut [u8], at: usize, numbers: &[i32]) -> usize
    requires { at + 12 * length numbers.now + 10 ≤ length text.old }
    ensures put { Put at text.old (spaced numbers.now) result text.new }
    ensures upper_bound { result ≤ at + 12 * length numbers.now }
{
    let mut end = at;
    for number in numbers {
        end = put_next(text, end, *number);
    }
    end
}

// Puts a row of numbers as a line.
#[tactic(auto, unfolding(crate::specs::Text::ascii, crate::specs::Text::row_text))]
pub fn put_row(text: &mut [u8], at: usize, numbers: &[i32]) -> usize
    requires { at + 12 * length numbers.now + 21 ≤ length text.old }
    ensures put { Put at text.old (row_text numbers.now) result text.new }
    ensures upper_bound { result ≤ at + 12 * length numbers.now + 1 }
{
    if numbers.is_empty() {
        return put_word(text, at, b"\n");
    }
    let first = put_signed(text, at, numbers[0]);
    let last = put_spaced(text, first, &numbers[1..]);
    put_word(text, last, b"\n")
}

// Puts a plane of numbers, a line for each row.
pub fn put_rows(text: &mut [u8], at: usize, numbers: &[i32], width: usize, height: usize) -> usize
    requires numbers_len { length numbers.now ≡ width * height }
    requires height_in_bounds { at + 12 * (width * height) + height + 21 ≤ length text.old }
    ensures put { Put at text.old (rows_text width height numbers.now) result text.new }
    ensures upper_bound { result ≤ at + 12 * (width * height) + height }
{
    let mut end = at;
    for y in 0..height {
        let from = y * width;
        end = put_row(text, end, &numbers[from..from + width]);
    }
    end
}
