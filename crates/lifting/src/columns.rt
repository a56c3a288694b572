// Document 01, "Lifting", on the columns of a picture in a plane: the unit of work is a row, whose elements are lifted all at once.
ghost use Rattle.std.specs.Prelude.{◌≡◌, true, ℕ, ◌+◌, ◌*◌, ◌^◌, ◌≤◌, ◌<◌, get_or, is_ok};
ghost use Rattle.base.specs.Fill.{fill};
ghost use Rattle.filters.specs.Bounds.{BoundsFit};
ghost use Rattle.filters.specs.Table.{WellFormedStep};
ghost use Rattle.lifting.specs.Layout.{FrameFits};
ghost use Rattle.filters.specs.Pictures.{target_row, source_row};
ghost use Rattle.lifting.specs.LineBounds.{StepRowsWithin};
ghost use Rattle.lifting.specs.Lines.{row_start, new_row, new_row_fits};

use crate::frame::Frame;
use crate::steps::lift;
use base::status::OutOfRange;
use filters::bounds::Bounds;
use filters::filter::LiftingStep;
use std::array;

// Runs one step on one element of every column: the row of pair k that the step changes, in 32 bits where the sizes of the numbers allow it. Refuses
// where a new number is outside 32 bits; then the plane's numbers are of no use.
pub fn lift_row(
    work: &mut [i32],
    frame: Frame,
    k: usize,
    step: LiftingStep,
    bounds: Bounds,
) -> Result<(), OutOfRange>
    requires frame_fits { FrameFits frame work.old × WellFormedStep step × (k < frame.band_rows) × BoundsFit bounds }
    requires step_rows_within { StepRowsWithin frame step k bounds work.old }
    ensures told { is_ok result ≡ new_row_fits frame step work.old k }
    ensures done { is_ok result ≡ true → work.new
        ≡ fill work.old (row_start frame step k) (2 * frame.band_columns) (new_row frame step k work.old) }
{
    let starts = row_starts(frame, step.even, k + step.lead);
    let target = target_row(step.even, k) * frame.stride;
    lift(work, target, 2 * frame.band_columns, &starts, step, bounds)
}

// The row of pair k that a step changes.
fn target_row(even: bool, k: usize) -> usize
    requires { k < 2048 }
    ensures { result ≡ target_row even k }
{
    if even { 2 * k } else { 2 * k + 1 }
}

// The row that a tap reads.
fn source_row(even: bool, pairs: usize, s: usize) -> usize
    requires { (1 ≤ pairs) × (pairs ≤ 2048) }
    ensures { result ≡ source_row even pairs s }
{
    let clamped = s.saturating_sub(4).min(pairs - 1);
    if even { 2 * clamped + 1 } else { 2 * clamped }
}

// Where the rows that eight taps read start in the plane, the first tap's being s.
fn row_starts(frame: Frame, even: bool, s: usize) -> [usize; 8]
    requires { (1 ≤ frame.band_rows) × (frame.band_rows ≤ 2048) × (2 * frame.band_rows * frame.stride < 2 ^ 64) × (s ≤ 4096) }
    ensures { (t : ℕ) → t < 8 → get_or result t 0 ≡ source_row even frame.band_rows (s + t) * frame.stride }
{
    array::from_fn(|t| source_start(frame, even, s + t))
}

// Where the row that a tap reads starts.
fn source_start(frame: Frame, even: bool, s: usize) -> usize
    requires { (1 ≤ frame.band_rows) × (frame.band_rows ≤ 2048) × (2 * frame.band_rows * frame.stride < 2 ^ 64) }
    ensures { result ≡ source_row even frame.band_rows s * frame.stride }
{
    source_row(even, frame.band_rows, s) * frame.stride
}
