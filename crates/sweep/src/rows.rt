// The last stage of a sweep: the rows of a pair are filtered, in place or into the samples.
ghost use Rattle.std.specs.Prelude.{◌≡◌, true, ◌*◌, ◌<◌, is_ok};
ghost use Rattle.base.specs.Fill.{fill};
ghost use Rattle.filters.specs.Table.{WellFormed};
ghost use Rattle.lifting.specs.Layout.{FrameFits};
ghost use Rattle.sweep.specs.Rows.{RowInside, row_fits, pair_fits};
ghost use Rattle.sweep.specs.LastStage.{RowRoom, rows_left, pair_left, row_kept, samples_left};

use crate::level::Level;
use base::status::OutOfRange;
use filters::filter::LiftingFilter;
use lifting::rows::{KeptRow, filter_row, finish_row, kept_columns};
use lines::buffers::LineBuffer;

// The width and the height of the samples.
#[derive(Clone, Copy)]
pub struct Crop {
    pub width: usize,
    pub height: usize,
}

// Filters both rows of a pair, which stand as two halves, with the shift: in place, or, where the level is finished, into the samples, as far as these
// go, with zeros left in the plane. Refuses where a new number of a step is outside 32 bits; then the numbers of both planes are of no use.
pub fn filter_pair(
    work: &mut [i32],
    samples: &mut [i32],
    halves: &mut LineBuffer,
    level: Level,
    filter: LiftingFilter,
    k: usize,
) -> Result<(), OutOfRange>
    requires { FrameFits level.frame work.old × WellFormed filter × RowRoom level samples.old × (k < level.frame.band_rows) }
    ensures told { is_ok result ≡ pair_fits level.frame filter work.old k }
    ensures done { is_ok result ≡ true → work.new ≡ pair_left level filter k work.old }
    ensures finished { is_ok result ≡ true → samples.new ≡ samples_left level filter k work.old samples.old }
{
    filter_row_of(work, samples, halves, level, filter, 2 * k)?;
    filter_row_of(work, samples, halves, level, filter, 2 * k + 1)
}

// The same for one row of the level's frame. Not inlined, it would be handed a copy of the filter for each row.
#[inline(always)]
fn filter_row_of(
    work: &mut [i32],
    samples: &mut [i32],
    halves: &mut LineBuffer,
    level: Level,
    filter: LiftingFilter,
    row: usize,
) -> Result<(), OutOfRange>
    requires { WellFormed filter × RowInside level.frame row work.old × RowRoom level samples.old }
    ensures told { is_ok result ≡ row_fits level.frame filter work.old row }
    ensures done { is_ok result ≡ true → work.new
        ≡ fill work.old (row * level.frame.stride) (2 * level.frame.band_columns) (rows_left level filter work.old row) }
    ensures finished { is_ok result ≡ true → samples.new ≡ row_kept level filter row work.old samples.old }
{
    let frame = level.frame;
    let start = row * frame.stride;
    let Some(crop) = level.crop else {
        return filter_row(work, start, halves, frame.band_columns, filter);
    };
    let count = kept_columns(row, crop.width, crop.height);
    let kept = KeptRow {
        start,
        to: row * count,
        count,
    };
    finish_row(work, samples, halves, frame.band_columns, kept, filter)
}
