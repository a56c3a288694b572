// Document 01, "Lifting", on the rows of a picture in a plane: a row is taken apart into its even and its odd elements, in a line buffer,
// lifted there, and interleaved back.
ghost use Rattle.std.specs.Prelude.{◌≡◌, true, ℕ, ◌+◌, ◌*◌, ◌≤◌, ◌<◌, pos, length, get_or, is_ok};
ghost use Rattle.base.specs.Fill.{fill};
ghost use Rattle.lines.specs.Buffers.{interleaved};
ghost use Rattle.filters.specs.Lifting.{lift};
ghost use Rattle.filters.specs.Passes.{rows, run, new_fit};
ghost use Rattle.filters.specs.Table.{step_of, WellFormedStep, filter_from, WellFormed};
ghost use Rattle.lifting.specs.Layout.{half_line, base_of, HalvesInside, row_after, row_numbers_fit, halves_made, halves_fit};
ghost use Rattle.filters.specs.Bounds.{bounds_after};
ghost use Rattle.lifting.specs.LineBounds.{HalvesWithin};

use crate::steps::lift;
use base::plane::zero_part;
use base::status::OutOfRange;
use filters::bounds::{Bounds, bounds_after};
use filters::filter::{LiftingFilter, LiftingStep};
use lines::buffers::{LineBuffer, extend, interleave};
use lines::measures::copy_measured;
use std::array;

// A row of the last level: where it starts in the plane, and how many of its first numbers go to the samples, from an index on.
#[derive(Clone, Copy)]
pub struct KeptRow {
    pub start: usize,
    pub to: usize,
    pub count: usize,
}

// Runs the steps of a filter, and its shift, on a row that stands as two halves: what is kept of it goes to the samples, and it is zeroed in the
// plane. Refuses where a new number of a step is outside 32 bits; then the numbers of both planes are of no use.
pub fn finish_row(
    work: &mut [i32],
    samples: &mut [i32],
    halves: &mut LineBuffer,
    half: usize,
    kept: KeptRow,
    filter: LiftingFilter,
) -> Result<(), OutOfRange>
    requires well_formed { WellFormed filter × HalvesInside half kept.start work.old }
    requires count_bound { (kept.count ≤ 2 * half) × (kept.to + kept.count ≤ length samples.old) }
    ensures told { is_ok result ≡ halves_fit filter half kept.start work.old }
    ensures done { is_ok result ≡ true → samples.new
        ≡ fill samples.old kept.to kept.count (halves_made filter half kept.start work.old) }
    ensures cleared { is_ok result ≡ true → work.new ≡ fill work.old kept.start (2 * half) (λ x. pos 0) }
{
    filter_row_halves(work, kept.start, halves, half, filter)?;
    interleave(samples, kept.to, halves, kept.count, filter.shift);
    zero_part(work, kept.start, 2 * half);
    Ok(())
}

// How many columns of a row are kept in a picture of this width and height.
pub fn kept_columns(row: usize, width: usize, height: usize) -> usize
    ensures inside { row < height → result ≡ width }
    ensures below { height ≤ row → result ≡ 0 }
{
    if row < height { width } else { 0 }
}

// The same in place, for the row that starts at an index of the plane. What the two share is one call, and what follows differs in each line.
pub fn filter_row(
    work: &mut [i32],
    start: usize,
    halves: &mut LineBuffer,
    half: usize,
    filter: LiftingFilter,
) -> Result<(), OutOfRange>
    requires { WellFormed filter × HalvesInside half start work.old }
    ensures told { is_ok result ≡ halves_fit filter half start work.old }
    ensures done { is_ok result ≡ true → work.new ≡ fill work.old start (2 * half) (halves_made filter half start work.old) }
{
    filter_row_halves(work, start, halves, half, filter)?;
    interleave(work, start, halves, 2 * half, filter.shift);
    Ok(())
}

// Copies the two halves of the row that starts at an index of the plane into the line buffer, and runs the steps of a filter on them there.
fn filter_row_halves(
    work: &[i32],
    start: usize,
    halves: &mut LineBuffer,
    half: usize,
    filter: LiftingFilter,
) -> Result<(), OutOfRange>
    requires { WellFormed filter × HalvesInside half start work.now }
    ensures told { is_ok result ≡ halves_fit filter half start work.now }
    ensures done { is_ok result ≡ true → (x : ℕ) → x < 2 * half → interleaved halves.new x
        ≡ row_after half (filter_from filter) (half_line half start work.now) x }
{
    let low_most = u64::from(copy_measured(halves, 4, work, start, half));
    let high_most = u64::from(copy_measured(halves, 2060, work, start + half, half));
    let bounds = Bounds {
        even: low_most + 1,
        odd: high_most + 1,
    };
    filter_halves(halves, half, filter, bounds)
}

// Runs the steps of a filter on a row whose even and odd elements stand as the two halves in the line buffer, each within its bound.
fn filter_halves(
    halves: &mut LineBuffer,
    half: usize,
    filter: LiftingFilter,
    first: Bounds,
) -> Result<(), OutOfRange>
    requires le_half { (1 ≤ half) × (half ≤ 2048) × WellFormed filter }
    requires halves_within { HalvesWithin half first halves.old }
    ensures told { is_ok result ≡ row_numbers_fit half (filter_from filter) (interleaved halves.old) }
    ensures done { is_ok result ≡ true → (x : ℕ) → x < 2 * half → interleaved halves.new x
        ≡ row_after half (filter_from filter) (interleaved halves.old) x }
{
    let mut bounds = first;
    for step in &filter.steps[..filter.count] {
        lift_halves(halves, half, *step, bounds)?;
        bounds = bounds_after(*step, bounds);
    }
    Ok(())
}

// Runs one step on such a row: lifts one half by the other, whose ends are repeated first, in 32 bits where the sizes of their numbers allow it.
fn lift_halves(
    halves: &mut LineBuffer,
    half: usize,
    step: LiftingStep,
    bounds: Bounds,
) -> Result<(), OutOfRange>
    requires le_half { (1 ≤ half) × (half ≤ 2048) × WellFormedStep step }
    requires halves_within { HalvesWithin half bounds halves.old }
    ensures told { is_ok result
        ≡ new_fit 1 (2 * half) (rows (step_of step)) (run 1 (2 * half) (rows (step_of step)) (λ row. interleaved halves.old)) }
    ensures done { is_ok result ≡ true → (x : ℕ) → x < 2 * half → interleaved halves.new x
        ≡ lift (step_of step) (2 * half) (interleaved halves.old) x }
    ensures bounded { is_ok result ≡ true → HalvesWithin half (bounds_after step bounds) halves.new }
{
    let source = base_of(!step.even);
    let target = base_of(step.even) + 4;
    extend(halves, source, half);
    let starts = line_starts(source + step.lead);
    lift(halves, target, half, &starts, step, bounds)
}

// The base of the half of the even elements in the line buffer, or of that of the odd ones.
fn base_of(even: bool) -> usize
    ensures { result ≡ base_of even }
{
    if even { 0 } else { 2056 }
}

// Where eight taps start in the line buffer, one after the other.
fn line_starts(first: usize) -> [usize; 8]
    requires { first ≤ 4112 }
    ensures { (t : ℕ) → t < 8 → get_or result t 0 ≡ first + t }
{
    array::from_fn(|t| first + t)
}
