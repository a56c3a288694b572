// The line buffer that holds the two halves of a row.
ghost use Rattle.std.specs.Prelude.{◌≡◌, ◌+◌, ◌*◌, ◌≤◌, ◌<◌, length};
ghost use Rattle.lines.specs.Buffers.{EndsRepeated, KeptOutside, shifted, row_number, with_row, with_row_part};

use base::plane::copy;

// The low half stands from entry 4 on, the high one from entry 2060 on, each with room for four entries on either side. An array and no struct:
// how many numbers a half has changes from level to level and how large they are from step to step, so that each function says it.
pub type LineBuffer = [i32; 4112];

// Repeats the first and the last entry of the half that stands behind a base four times on either side of it. The rest stays.
pub fn extend(halves: &mut LineBuffer, base: usize, half: usize)
    requires { (base ≤ 2056) × (1 ≤ half) × (half ≤ 2048) }
    ensures repeated { EndsRepeated base half halves.old halves.new }
    ensures kept { KeptOutside base half halves.old halves.new }
{
    // As a slice, since of an array behind a reference a proof is not told the length.
    let all: &mut [i32] = halves;
    let first = all[base + 4];
    let last = all[base + half + 3];
    for i in 0..4 {
        all[base + i] = first;
        all[base + half + 4 + i] = last;
    }
}

// Interleaves the two halves of a row: stores its first `count` numbers in a plane from an index on, shifted if asked for.
pub fn interleave(plane: &mut [i32], start: usize, halves: &LineBuffer, count: usize, shift: bool)
    requires { (count ≤ 4096) × (start + count ≤ length plane.old) }
    ensures { plane.new ≡ with_row plane.old start count halves.now shift }
{
    let eights = count / 8;
    interleave_eights(plane, start, halves, eights, shift);
    let done = 8 * eights;
    interleave_part(plane, start + done, halves, done, count - done, shift);
}

// The same for eight numbers at a time. They are all read before the first is stored, so that a compiler can store four by one instruction.
fn interleave_eights(
    plane: &mut [i32],
    start: usize,
    halves: &LineBuffer,
    eights: usize,
    shift: bool,
)
    requires { (eights ≤ 512) × (start + 8 * eights ≤ length plane.old) }
    ensures { plane.new ≡ with_row plane.old start (8 * eights) halves.now shift }
{
    for i in 0..eights {
        let mut eight = [0i32; 8];
        interleave_part(&mut eight, 0, halves, 8 * i, 8, shift);
        copy(plane, start + 8 * i, &eight, 0, 8);
    }
}

// The same for `count` numbers from number `from` of the row on.
fn interleave_part(
    plane: &mut [i32],
    start: usize,
    halves: &LineBuffer,
    from: usize,
    count: usize,
    shift: bool,
)
    requires { (from + count ≤ 4096) × (start + count ≤ length plane.old) }
    ensures { plane.new ≡ with_row_part plane.old start from count halves.now shift }
{
    for x in 0..count {
        plane[start + x] = row_number(halves, from + x, shift);
    }
}

// Number x of the row, shifted if asked for.
#[tactic(auto, unfolding(crate::specs::Buffers::interleaved))]
fn row_number(halves: &LineBuffer, x: usize, shift: bool) -> i32
    requires { x < 4096 }
    ensures { result ≡ row_number halves.now shift x }
{
    if x % 2 == 0 {
        halved(halves[4 + x / 2], shift)
    } else {
        halved(halves[2060 + x / 2], shift)
    }
}

// The number halved, a half rounded up, or as it is.
#[tactic(auto, using(crate::proofs::BuffersLaws::half_up), unfolding(crate::specs::Buffers::shifted))]
fn halved(v: i32, shift: bool) -> i32
    ensures { result ≡ shifted shift v }
{
    if shift { v - (v >> 1) } else { v }
}
