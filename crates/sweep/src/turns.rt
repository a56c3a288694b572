// A turn of the sweep: each column step is run on the pairs of rows that it has come to.
ghost use Rattle.std.specs.Prelude.{◌≡◌, true, ℕ, suc, ◌≤◌, ◌<◌, is_ok};
ghost use Rattle.lifting.specs.Layout.{FrameFits};
ghost use Rattle.filters.specs.Passes.{Picture};
ghost use Rattle.filters.specs.Bounds.{BoundsFit};
ghost use Rattle.filters.specs.Table.{WellFormedStep, WellFormed};
ghost use Rattle.lifting.specs.LineBounds.{StepRowsWithin};
ghost use Rattle.lifting.specs.Lines.{new_row_fits};
ghost use Rattle.sweep.specs.Pairs.{Tells, EachPair, FramePut};
ghost use Rattle.sweep.specs.Stages.{Spaced, Stages, Swept, reach_in, came_to};
ghost use Rattle.sweep.specs.Turns.{Bounded, TurnFits, stepped};

use base::status::OutOfRange;
use filters::bounds::{Bounds, bounds_after};
use filters::filter::{LiftingFilter, LiftingStep};
use lifting::columns::lift_row;
use lifting::frame::Frame;

// How many pairs of rows a turn brings to each stage. A stage that takes one pair at a time reads memory in parts that are too short.
pub const TURN_PAIRS: usize = 8;

// How many of the pairs a stage has come to that is so far and lags behind.
pub fn came_to(pairs: usize, lag: usize, reach: usize) -> usize
    ensures { result ≡ came_to pairs lag reach }
{
    reach.saturating_sub(lag).min(pairs)
}

// Runs each step of a filter on the pairs of rows that it comes to at a turn. The bands of the turn's own pairs are interleaved, and the numbers that
// were interleaved are at most `most` + 1 in size. Refuses where a new number is outside 32 bits; then the plane's numbers are of no use.
pub fn lift_turn(
    work: &mut [i32],
    frame: Frame,
    filter: LiftingFilter,
    gap: usize,
    turn: usize,
    most: u32,
) -> Result<(), OutOfRange>
    requires frame_fits { FrameFits frame work.old × WellFormed filter × Spaced filter gap × (gap ≤ 4) × (turn < 4096) }
    requires bounded_2 { Bounded frame gap (reach_in frame filter turn 1) filter (suc most) work.old }
    ensures bounded { is_ok result ≡ true → Bounded frame gap (reach_in frame filter turn (suc filter.count)) filter (suc most) work.new }
    ensures swept { (stages : ℕ → Picture) → Stages frame filter stages → Swept frame gap (reach_in frame filter turn 1) stages work.old
        → Tells (is_ok result) (TurnFits frame filter gap turn stages)
        × (is_ok result ≡ true → Swept frame gap (reach_in frame filter turn (suc filter.count)) stages work.new) }
{
    let size = u64::from(most) + 1;
    let mut bounds = Bounds {
        even: size,
        odd: size,
    };
    for (i, step) in filter.steps[..filter.count].iter().enumerate() {
        let lag = (i + 1) * gap;
        let from = came_to(frame.band_rows, lag, turn);
        let to = came_to(frame.band_rows, lag, turn + TURN_PAIRS);
        lift_rows(work, frame, *step, from, to, bounds)?;
        bounds = bounds_after(*step, bounds);
    }
    Ok(())
}

// Runs a step on the pairs of rows from one on to another. Refuses as above.
fn lift_rows(
    work: &mut [i32],
    frame: Frame,
    step: LiftingStep,
    from: usize,
    to: usize,
    bounds: Bounds,
) -> Result<(), OutOfRange>
    requires frame_fits { FrameFits frame work.old × WellFormedStep step × BoundsFit bounds }
    requires from_le_to { (from ≤ to) × (to ≤ frame.band_rows) × ((k : ℕ) → from ≤ k → k < to → StepRowsWithin frame step k bounds work.old) }
    ensures told { Tells (is_ok result) (EachPair from to (new_row_fits frame step work.old)) }
    ensures done { is_ok result ≡ true → FramePut frame from to (stepped frame step work.old) work.old work.new }
{
    for k in from..to {
        lift_row(work, frame, k, step, bounds)?;
    }
    Ok(())
}
