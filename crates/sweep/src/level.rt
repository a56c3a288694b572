// Document 01, "Synthesis and analysis": a level of synthesis in one sweep over the pairs of rows of its picture.
ghost use Rattle.std.specs.Prelude.{◌≡◌, true, ◌≤◌, is_ok};
ghost use Rattle.lifting.specs.Layout.{FrameFits, AgreeOn, frame_picture};
ghost use Rattle.filters.specs.Planes.{picture_of};
ghost use Rattle.filters.specs.Table.{WellFormed};
ghost use Rattle.filters.specs.Pictures.{Agree};
ghost use Rattle.sweep.specs.Bands.{BandsInside};
ghost use Rattle.sweep.specs.Pairs.{Tells, EachPair, FramePut};
ghost use Rattle.sweep.specs.Stages.{Spaced};
ghost use Rattle.sweep.specs.Rows.{row_made, pair_fits};
ghost use Rattle.sweep.specs.LastStage.{finishes, crop_of, rows_left, SamplesPut};
ghost use Rattle.sweep.specs.Levels.{RoomFor, level_fits, level_made, level_left};

use crate::bands::interleave_pairs;
use crate::rows::{Crop, filter_pair};
use crate::turns::{TURN_PAIRS, came_to, lift_turn};
use base::status::OutOfRange;
use filters::filter::LiftingFilter;
use lifting::frame::Frame;
use lines::buffers::LineBuffer;
use lines::measures::join;

// A level that is swept: where its picture stands in the work plane, how far its stages are apart, and, where its rows are finished into the samples,
// the sizes of these.
#[derive(Clone, Copy)]
pub struct Level {
    pub frame: Frame,
    pub gap: usize,
    pub crop: Option<Crop>,
}

// Sweeps a level: interleaves its bands around the picture of the level below, which stands in every other row of the frame, filters every column,
// then every row, with the shift; each pair of rows as soon as it can be. What is left of it stands in the frame, or is finished into the samples, and
// then the frame holds zeros. Refuses where a new number of a step is outside 32 bits; then the numbers of both planes are of no use.
pub fn sweep_level(
    work: &mut [i32],
    samples: &mut [i32],
    coefficients: &[i32],
    padded_width: usize,
    halves: &mut LineBuffer,
    level: Level,
    filter: LiftingFilter,
) -> Result<(), OutOfRange>
    requires frame_fits { FrameFits level.frame work.old × WellFormed filter × Spaced filter level.gap × (level.gap ≤ 4) × RoomFor level samples.old }
    requires bands_inside { BandsInside level.frame padded_width coefficients.now }
    ensures told { is_ok result ≡ level_fits level filter padded_width work.old coefficients.now }
    ensures done { is_ok result ≡ true → AgreeOn level.frame (frame_picture level.frame work.new)
        (level_left level filter padded_width work.old coefficients.now) }
    ensures finished { is_ok result ≡ true → finishes level ≡ true
        → Agree (crop_of level).height (crop_of level).width (picture_of (crop_of level).width samples.new)
        (level_made level filter padded_width work.old coefficients.now) }
{
    let lag = (filter.count + 1) * level.gap;
    let last = level.frame.band_rows + lag;
    let mut most = 0u32;
    for turn in (0..last).step_by(TURN_PAIRS) {
        let frame = level.frame;
        let pairs = frame.band_rows;
        let from = came_to(pairs, 0, turn);
        let to = came_to(pairs, 0, turn + TURN_PAIRS);
        let here = interleave_pairs(work, coefficients, padded_width, frame, from, to);
        most = join(most, here);
        lift_turn(work, frame, filter, level.gap, turn, most)?;
        let first = came_to(pairs, lag, turn);
        let end = came_to(pairs, lag, turn + TURN_PAIRS);
        filter_pairs(work, samples, halves, level, filter, first, end)?;
    }
    Ok(())
}

// Filters the rows of the pairs from one on to another. Refuses where a new number of a step is outside 32 bits; then the numbers of both planes are of no
// use.
fn filter_pairs(
    work: &mut [i32],
    samples: &mut [i32],
    halves: &mut LineBuffer,
    level: Level,
    filter: LiftingFilter,
    from: usize,
    to: usize,
) -> Result<(), OutOfRange>
    requires frame_fits { FrameFits level.frame work.old × WellFormed filter × RoomFor level samples.old }
    requires from_le_to { (from ≤ to) × (to ≤ level.frame.band_rows) }
    ensures told { Tells (is_ok result) (EachPair from to (pair_fits level.frame filter work.old)) }
    ensures done { is_ok result ≡ true → FramePut level.frame from to (rows_left level filter work.old) work.old work.new }
    ensures finished { is_ok result ≡ true → finishes level ≡ true
        → SamplesPut (crop_of level) from to (row_made level.frame filter work.old) samples.old samples.new }
{
    for k in from..to {
        filter_pair(work, samples, halves, level, filter, k)?;
    }
    Ok(())
}
