// Document 02, request Four: values that go side by side into a run, from a part of data. "a bit past a part's end reads as 1". Values are read
// many at once up to the last of them.
#![tactic(auto)]

ghost use Rattle.std.specs.Prelude.{◌≡◌, true, false, ◌+◌, ◌≤◌, ◌<◌, min};
ghost use Rattle.coefficients.specs.Reading.{goes_on};
ghost use Rattle.coefficients.specs.Scaling.{scale_of, small_fit};
ghost use Rattle.coefficients.specs.Values.{after, index_of, entries, Ready};
ghost use Rattle.coefficients.specs.Portions.{Reads};
ghost use Rattle.runs.specs.Runs.{side_by_side, Fresh, SoundSpan, Inside, BeforeEnd};

mod padded;

use base::status::Fault;
use coefficients::quantiser::small_fit;
use coefficients::reading::{Cursor, Portion};
use coefficients::values::{Decoder, Placing, read_few, read_value};
use padded::padded_window;

// Where a part of data stands: its next bit, the bit at which it ends, and the bit of all the bytes that its first bit is. Past its end bits
// read as 1. That it stands before its end (`SoundSpan`) is said by contracts, since slices make spans of plain numbers.
#[derive(Clone, Copy)]
pub struct Span {
    pub bit: usize,
    pub end: usize,
    pub origin: usize,
}

// Places side by side: value i goes to entry i.
#[derive(Clone, Copy)]
struct SideBySide {
    count: usize,
}

impl Placing for SideBySide {
    ghost layout = { λ s. side_by_side s.count };

    fn count(self) -> usize {
        self.count
    }

    fn index_at(self, i: usize) -> usize {
        i
    }
}

// Reads n values, dequantised, into the first n entries of a run, which hold zeros: all, or up to one that is refused. Answers the bit after them.
pub fn read_run(
    run: &mut [i32],
    n: usize,
    bytes: &[u8],
    span: Span,
    decoder: Decoder,
) -> Result<usize, Fault>
    requires { Fresh n run.old × SoundSpan span }
    ensures read { after result run.new
        ≡ entries bytes.now span.end span.origin (scale_of decoder.entry.q) (λ k. k) 0 n (goes_on span.bit run.old) }
    ensures inside { BeforeEnd span.end result }
{
    // The bit at which the data end: the span's, or where the bytes do.
    let end = span.end.min(bytes.len().saturating_mul(8));
    let placing = SideBySide { count: n };
    let mut bit = span.bit;
    let mut i = 0;
    // By as many as were read.
    while i < n {
        // The values that are left are zeros.
        if end <= bit {
            return Ok(bit);
        }
        let cursor = Cursor {
            bit,
            end,
            stated: true,
            origin: span.origin,
        };
        let part = read_some(run, placing, i, bytes, cursor, decoder);
        i += part.count;
        bit = part.progress?;
    }
    Ok(bit)
}

// Reads a value or more: many at once where small values fit, by the next bits, with ones for those past the end; one value where none ends in them.
// As in coefficients::values, but that a window is there always, and ends with the part.
fn read_some(
    run: &mut [i32],
    placing: SideBySide,
    i: usize,
    bytes: &[u8],
    cursor: Cursor,
    decoder: Decoder,
) -> Portion
    requires { (i < placing.count) × Ready (side_by_side placing.count) i run.old × Inside bytes.now cursor }
    ensures read { Reads bytes.now cursor (scale_of decoder.entry.q) (index_of (side_by_side placing.count)) i run.old result run.new }
    ensures some { (1 ≤ result.count) × (i + result.count ≤ placing.count) }
{
    if small_fit(decoder.q) {
        let w = padded_window(bytes, cursor.end, cursor.bit);
        let batch = read_few(run, placing, i, w, decoder);
        if batch.count != 0 {
            return Portion {
                count: batch.count,
                progress: Ok(cursor.end.min(cursor.bit + batch.bits)),
                short: false,
            };
        }
    }
    read_value(run, placing, i, bytes, cursor, decoder.q)
}
