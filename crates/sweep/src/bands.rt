// Document 01, "Synthesis and analysis": interleave, pair of rows by pair of rows.
ghost use Rattle.std.specs.Prelude.{◌≡◌, ℕ, suc, ◌≤◌, ◌<◌};
ghost use Rattle.lifting.specs.Layout.{FrameFits};
ghost use Rattle.sweep.specs.Bands.{with_band_row, PairWithin, BandsInside, band_rows};
ghost use Rattle.sweep.specs.Pairs.{FramePut};

use lifting::frame::Frame;
use lines::measures::{copy_measured, join, measure};

// Interleaves the bands of the pairs of rows from one on to another. Answers how large their numbers are: none is larger than the answer and 1.
pub fn interleave_pairs(
    work: &mut [i32],
    coefficients: &[i32],
    padded_width: usize,
    frame: Frame,
    from: usize,
    to: usize,
) -> u32
    requires frame_fits { FrameFits frame work.old × (from ≤ to) × (to ≤ frame.band_rows) }
    requires bands_inside { BandsInside frame padded_width coefficients.now }
    ensures stored { FramePut frame from to (band_rows frame padded_width work.old coefficients.now) work.old work.new }
    ensures measured { (k : ℕ) → from ≤ k → k < to → PairWithin frame k (suc result) work.new }
{
    let mut most = 0;
    for r in from..to {
        let here = interleave_pair(work, coefficients, padded_width, frame, r);
        most = join(most, here);
    }
    most
}

// Row r of each band: HL beside row r of the picture of the level below, LH and HH into the row after it.
fn interleave_pair(
    work: &mut [i32],
    coefficients: &[i32],
    padded_width: usize,
    frame: Frame,
    r: usize,
) -> u32
    requires frame_fits { FrameFits frame work.old × (r < frame.band_rows) }
    requires bands_inside { BandsInside frame padded_width coefficients.now }
    ensures stored { work.new ≡ with_band_row frame padded_width r work.old coefficients.now }
    ensures measured { PairWithin frame r (suc result) work.new }
{
    let columns = frame.band_columns;
    let stride = frame.stride;
    let even_row = 2 * r * stride;
    let low = measure(work, even_row, columns);
    let upper_bands = r * padded_width + columns;
    let upper = copy_measured(work, even_row + columns, coefficients, upper_bands, columns);
    let odd_row = (2 * r + 1) * stride;
    let lower_bands = (frame.band_rows + r) * padded_width;
    let lower = copy_measured(work, odd_row, coefficients, lower_bands, 2 * columns);
    join(join(low, upper), lower)
}
