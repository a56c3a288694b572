// Document 01, "Lifting": one step on a line of numbers in a plane, whose taps read other lines of the same plane.
ghost use Rattle.std.specs.Prelude.{◌≡◌, true, ℕ, ◌+◌, ◌^◌, ◌≤◌, ◌<◌, get_or, is_ok};
ghost use Rattle.filters.specs.Bounds.{BoundsFit, stays_small, source_bound, target_bound};
ghost use Rattle.lifting.specs.Lines.{LineInside, LineWithin, LineLifted};

use base::status::OutOfRange;
use filters::bounds::{Bounds, reads_narrow, stays_small};
use filters::filter::{LiftingStep, rounding_of};
use lifting32::{LineStep, lift_small};
use lines::sums::{lift_line, sum_taps};
use std::array;

// Lifts a line by a step: in 32 bits where the sizes of its numbers and of those that are read allow it, else exactly. Refuses where a new number is
// outside 32 bits; then the plane's numbers are of no use. Part of its callers, so that no branch stands before the loops that are copied for
// known taps (lifting32).
#[inline(always)]
pub fn lift(
    plane: &mut [i32],
    start: usize,
    width: usize,
    starts: &[usize; 8],
    step: LiftingStep,
    bounds: Bounds,
) -> Result<(), OutOfRange>
    requires line_inside { LineInside step starts.now plane.old start width × LineWithin step bounds starts.now plane.old start width }
    requires bounds_fit { BoundsFit bounds }
    ensures { LineLifted step starts.now start width plane.old (is_ok result) plane.new }
{
    if stays_small(step, bounds) {
        lift_in_32_bits(plane, start, width, starts, step, bounds);
        return Ok(());
    }
    lift_exactly(plane, start, width, starts, step)
}

// Lifts a line by a step in 32 bits, where the sizes of its numbers and of those that are read allow it: every new number fits.
pub fn lift_in_32_bits(
    plane: &mut [i32],
    start: usize,
    width: usize,
    starts: &[usize; 8],
    step: LiftingStep,
    bounds: Bounds,
)
    requires line_inside { LineInside step starts.now plane.old start width × LineWithin step bounds starts.now plane.old start width }
    requires bounds_value { stays_small step (source_bound step bounds) (target_bound step bounds) ≡ true }
    ensures { LineLifted step starts.now start width plane.old true plane.new }
{
    let taps = step.taps;
    let line = LineStep {
        start,
        width,
        round: rounding_of(step.scale) as i32,
        scale: step.scale,
    };
    let narrow = reads_narrow(step, bounds);
    lift_small(plane, line, &taps, starts, step.count, step.adds, narrow);
}

// Lifts a line by a step exactly, in 64 bits, part by part: as many numbers at once as there is room for sums. Refuses where a new number is outside
// 32 bits; then the plane's numbers are of no use.
pub fn lift_exactly(
    plane: &mut [i32],
    start: usize,
    width: usize,
    starts: &[usize; 8],
    step: LiftingStep,
) -> Result<(), OutOfRange>
    requires { LineInside step starts.now plane.old start width }
    ensures { LineLifted step starts.now start width plane.old (is_ok result) plane.new }
{
    for done in (0..width).step_by(256) {
        let part = (width - done).min(256);
        let part_starts = moved_by(starts, step.count, done);
        lift_part(plane, start + done, part, &part_starts, step)?;
    }
    Ok(())
}

// Where the taps of a line read from, so many numbers on.
fn moved_by(starts: &[usize; 8], count: usize, numbers: usize) -> [usize; 8]
    requires { (count ≤ 8) × ((t : ℕ) → t < count → get_or starts.now t 0 + numbers < 2 ^ 64) }
    ensures { (t : ℕ) → t < count → get_or result t 0 ≡ get_or starts.now t 0 + numbers }
{
    array::from_fn(|t| if t < count { starts[t] + numbers } else { 0 })
}

// Lifts a part of a line exactly, as a line of its own.
fn lift_part(
    plane: &mut [i32],
    start: usize,
    width: usize,
    starts: &[usize; 8],
    step: LiftingStep,
) -> Result<(), OutOfRange>
    requires { LineInside step starts.now plane.old start width × (width ≤ 256) }
    ensures { LineLifted step starts.now start width plane.old (is_ok result) plane.new }
{
    let taps = step.taps;
    let round = rounding_of(step.scale);
    let mut exact = [0i64; 256];
    sum_taps(&mut exact, plane, width, &taps, starts, step.count, round);
    lift_line(plane, start, &exact, width, step.scale, step.adds)
}
