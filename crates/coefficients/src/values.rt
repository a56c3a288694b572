// Document 01, "One subband": values, each a signed number, that go one after the other to entries of a plane. Small values are looked up,
// many at once; the entries hold zeros, so a 0 needs no store.
ghost use Rattle.std.specs.Prelude.{◌≡◌, true, false, ◌+◌, ◌-◌, ◌≤◌, ◌<◌, ◌^◌, length, set};
ghost use Rattle.std.specs.Result.{IfErr};
ghost use Rattle.base.specs.Sign.{with_sign};
ghost use Rattle.exp_golomb.specs.Codes.{Number, result_of};
ghost use Rattle.lookups.specs.Windows.{is_window};
ghost use Rattle.coefficients.specs.Reading.{store};
ghost use Rattle.coefficients.specs.Scaling.{scale_of, small_fit, Small};
ghost use Rattle.coefficients.specs.Values.{after, index_of, Ready};
ghost use Rattle.coefficients.specs.Portions.{Sound, not_read, Reads, AllRead};
ghost use Rattle.coefficients.specs.Batches.{ReadsWithin};
ghost use Rattle.coefficients.specs.declared.values.Layout.{Layout};

use crate::quantiser::{dequantised, small_fit};
use crate::reading::{Cursor, Portion, Quantiser};
use base::signed;
use base::status::{Fault, Refusal};
use exp_golomb::codes::{ReadNumber, read_signed};
use lookups::{CodeTable, is_window, starts_with_ones, window};

// Where values go: value i to entry start + i + floor(i · reciprocal / 2^24) · gap, for i below count.
#[derive(Clone, Copy)]
pub struct Layout {
    pub start: usize,
    pub count: usize,
    pub reciprocal: usize,
    pub gap: usize,
}

// How the entries of a layout are found. What reads values is compiled anew for each type of placing, so that each reader has a copy of its own.
pub trait Placing: Copy {
    ghost layout: { Self → Layout };

    // How many values there are.
    fn count(self) -> usize
        ensures { result ≡ (layout self).count };

    // The entry that value i goes to.
    fn index_at(self, i: usize) -> usize
        requires { (i ≤ 16777216) × ((layout self).reciprocal ≤ 16777217) × (index_of (layout self) i < 2 ^ 64) }
        ensures { result ≡ index_of (layout self) i };
}

impl Placing for Layout {
    ghost layout = { λ l. l };

    fn count(self) -> usize {
        self.count
    }

    // A single row needs no multiplication.
    fn index_at(self, i: usize) -> usize {
        if self.reciprocal == 0 {
            return self.start + i;
        }
        self.start + i + (i * self.reciprocal / 16777216) * self.gap
    }
}

// What values are decoded by: a quantiser, a table of codes, and the small values, which are known where all of them fit.
#[derive(Clone, Copy)]
pub struct Decoder<'a> {
    pub q: Quantiser,
    pub table: &'a CodeTable,
    pub small: &'a [i32; 32],
    pub ghost small_known: { small_fit q ≡ true → Small (scale_of q) small.now },
}

// How many values were read, maybe none, and how many bits they took.
#[derive(Clone, Copy)]
pub struct Batch {
    pub count: usize,
    pub bits: usize,
}

// Reads the values of a layout from one on. Of data of a stated length it reads all, or up to one that is refused. Of other data it stops
// where bits are wanting, with fewer than 64 left; where exactly is free, and so is the count from a refused value on: what was read is what
// all data that begin so have. It is inlined first of all, with what reads some or one: else loops are doubled before that, and registers spilled.
#[inline(always)]
pub fn read_run(
    plane: &mut [i32],
    layout: Layout,
    from: usize,
    bytes: &[u8],
    cursor: Cursor,
    decoder: Decoder,
) -> Portion
    requires { Ready layout from plane.old × Sound cursor }
    ensures read { Reads bytes.now cursor (scale_of decoder.entry.q) (index_of layout) from plane.old result plane.new }
    ensures some { (from + result.count ≤ layout.count) × AllRead (layout.count - from) result }
{
    let mut next = cursor;
    let mut i = from;
    // By as many as were read.
    while i < layout.count {
        let part = read_some(plane, layout, i, bytes, next, decoder);
        i += part.count;
        let Ok(bit) = part.progress else {
            return Portion {
                count: i - from,
                progress: part.progress,
                short: false,
            };
        };
        if part.short {
            return Portion {
                count: i - from,
                progress: part.progress,
                short: true,
            };
        }
        next.bit = bit;
    }
    Portion {
        count: i - from,
        progress: Ok(next.bit),
        short: false,
    }
}

// Reads a value or more: many at once where the next bits are there and small values fit; one value where none ends in them.
#[inline(always)]
fn read_some(
    plane: &mut [i32],
    layout: Layout,
    i: usize,
    bytes: &[u8],
    cursor: Cursor,
    decoder: Decoder,
) -> Portion
    requires { (i < layout.count) × Ready layout i plane.old × Sound cursor }
    ensures read { Reads bytes.now cursor (scale_of decoder.entry.q) (index_of layout) i plane.old result plane.new }
    ensures some { (i + result.count ≤ layout.count) × (result.short ≡ false → 1 ≤ result.count) }
{
    if small_fit(decoder.q) && is_window(bytes, cursor.end, cursor.bit) {
        let w = window(bytes, cursor.bit);
        let batch = read_batch(plane, layout, i, w, decoder);
        if batch.count != 0 {
            return Portion {
                count: batch.count,
                progress: Ok(cursor.bit + batch.bits),
                short: false,
            };
        }
    }
    read_value(plane, layout, i, bytes, cursor, decoder.q)
}

// Reads values by the bits of a window: the last four one by one; of more, all that are left, or 32, at once where they are zeros; others by
// lookups. How many is free: whatever the count, they are the values that the bits begin with.
fn read_batch(
    plane: &mut [i32],
    layout: Layout,
    from: usize,
    window: u64,
    decoder: Decoder,
) -> Batch
    requires { (from < layout.count) × Ready layout from plane.old }
    ensures { ReadsWithin window decoder.entry.small.now layout from plane.old result plane.new }
{
    let left = layout.count - from;
    if 64 <= left {
        return read_many(plane, layout, from, window, decoder);
    }
    if left <= 4 {
        return read_codes(plane, layout, from, window, decoder);
    }
    read_few(plane, layout, from, window, decoder)
}

// Reads values by the bits of a window: all that are left, or 32, at once where they are zeros; others by lookups.
pub fn read_few<P: Placing>(
    plane: &mut [i32],
    placing: P,
    from: usize,
    window: u64,
    decoder: Decoder,
) -> Batch
    requires { (from < (P.layout placing).count) × Ready (P.layout placing) from plane.old }
    ensures { ReadsWithin window decoder.entry.small.now (P.layout placing) from plane.old result plane.new }
{
    let left = placing.count() - from;
    if left < 32 {
        if starts_with_ones(window, left) {
            return Batch {
                count: left,
                bits: left,
            };
        }
    } else if starts_with_ones(window, 32) {
        return Batch {
            count: 32,
            bits: 32,
        };
    }
    read_lookups(plane, placing, from, window, decoder)
}

// Reads values by the bits of a window where 63 or more are left: 32 at once where they are zeros; others by at most seven lookups, none of which
// can pass the layout's end, since each has nine values at most: so no turn asks for the end, which is why these are not `read_lookups`.
fn read_many(plane: &mut [i32], layout: Layout, from: usize, window: u64, decoder: Decoder) -> Batch
    requires { (from + 63 ≤ layout.count) × Ready layout from plane.old }
    ensures { ReadsWithin window decoder.entry.small.now layout from plane.old result plane.new }
{
    if starts_with_ones(window, 32) {
        return Batch {
            count: 32,
            bits: 32,
        };
    }
    let mut w = window;
    let mut i = from;
    let mut bits = 0;
    for _ in 0..7usize {
        let next = decoder.table.look_up(w);
        if next.bits == 0 {
            return Batch {
                count: i - from,
                bits,
            };
        }
        let index = layout.index_at(i + next.zeros);
        plane[index] = decoder.small[next.value];
        w <<= next.bits;
        i += next.count;
        bits += next.bits;
    }
    Batch {
        count: i - from,
        bits,
    }
}

// Reads the last values of a layout by a lookup for each: as many turns as values, whatever they are, so that a processor can foresee them.
fn read_codes(
    plane: &mut [i32],
    layout: Layout,
    from: usize,
    window: u64,
    decoder: Decoder,
) -> Batch
    requires { (layout.count ≤ from + 7) × Ready layout from plane.old }
    ensures { ReadsWithin window decoder.entry.small.now layout from plane.old result plane.new }
{
    let mut w = window;
    let mut bits = 0;
    for i in from..layout.count {
        let lookup = decoder.table.look_up(w);
        let taken = lookup.first_bits();
        if taken == 0 {
            return Batch {
                count: i - from,
                bits,
            };
        }
        let index = layout.index_at(i);
        plane[index] = decoder.small[lookup.first_value()];
        w <<= taken;
        bits += taken;
    }
    Batch {
        count: layout.count - from,
        bits,
    }
}

// Reads values by at most seven lookups. Of zeros that pass the layout's end only those before it are taken.
fn read_lookups<P: Placing>(
    plane: &mut [i32],
    placing: P,
    from: usize,
    window: u64,
    decoder: Decoder,
) -> Batch
    requires { Ready (P.layout placing) from plane.old }
    ensures { ReadsWithin window decoder.entry.small.now (P.layout placing) from plane.old result plane.new }
{
    let count = placing.count();
    let mut w = window;
    let mut i = from;
    let mut bits = 0;
    for _ in 0..7usize {
        let lookup = decoder.table.look_up(w);
        let to = i + lookup.zeros;
        if count <= to {
            return Batch {
                count: count - from,
                bits: bits + (count - i),
            };
        }
        if lookup.bits == 0 {
            return Batch {
                count: i - from,
                bits,
            };
        }
        let index = placing.index_at(to);
        plane[index] = decoder.small[lookup.value];
        w <<= lookup.bits;
        i += lookup.count;
        bits += lookup.bits;
    }
    Batch {
        count: i - from,
        bits,
    }
}

// Reads value i, if it is all there.
#[inline(always)]
pub fn read_value<P: Placing>(
    plane: &mut [i32],
    placing: P,
    i: usize,
    bytes: &[u8],
    cursor: Cursor,
    q: Quantiser,
) -> Portion
    requires { (i < (P.layout placing).count) × Ready (P.layout placing) i plane.old × Sound cursor }
    ensures read { Reads bytes.now cursor (scale_of q) (index_of (P.layout placing)) i plane.old result plane.new }
    ensures some { (result.count ≤ 1) × (result.short ≡ false → 1 ≤ result.count) }
{
    match read_signed(bytes, cursor.end, cursor.stated, cursor.bit) {
        Ok(number) => {
            let index = placing.index_at(i);
            Portion {
                count: 1,
                progress: store_value(plane, index, number, q, cursor.origin),
                short: false,
            }
        }
        Err(fault) => not_read(Err(fault), cursor),
    }
}

// What follows where no number was read: its refusal, or, where a bit is missing, that it is not all there.
pub fn not_read(number: Result<ReadNumber, Fault>, cursor: Cursor) -> Portion
    requires { IfErr number (λ fault. cursor.origin + fault.bit < 2 ^ 63) }
    ensures { (n : Number) → number ≡ result_of n → result ≡ not_read n cursor }
{
    if let Err(fault) = number {
        if let Refusal::CodeTooLong = fault.refusal {
            return Portion {
                count: 1,
                progress: Err(Fault {
                    bit: cursor.origin + fault.bit,
                    ..fault
                }),
                short: false,
            };
        }
    }
    Portion {
        count: 0,
        progress: Ok(cursor.bit),
        short: true,
    }
}

// Stores a number that was read, dequantised, at an index of the plane.
pub fn store_value(
    plane: &mut [i32],
    index: usize,
    number: ReadNumber,
    q: Quantiser,
    origin: usize,
) -> Result<usize, Fault>
    requires { (index < length plane.old) × (origin + number.next < 2 ^ 63) }
    ensures { after result plane.new
        ≡ store origin (with_sign (scale_of q number.size) number.minus) (λ v l. set l index v) number.next plane.old }
{
    let v = signed::with_sign(dequantised(q, number.size), number.minus);
    let Ok(value) = i32::try_from(v) else {
        return Err(Fault {
            refusal: Refusal::ValueOutOfRange,
            bit: origin + number.next,
        });
    };
    plane[index] = value;
    Ok(number.next)
}
