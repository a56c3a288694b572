// Document 01, "Synthesis and analysis": the levels of synthesis, in the work plane, and the last of them into the samples.
ghost use Rattle.std.specs.Prelude.{◌≡◌, true, suc, ◌-◌, ◌*◌, ◌^◌, ◌≤◌, is_ok, OnOk};
ghost use Rattle.component.specs.Sizes.{size_at};
ghost use Rattle.filters.specs.Table.{WellFormed};
ghost use Rattle.transform.specs.Geometry.{Planes, coefficient_picture, picture_at, first_bad_at, level_input, level_picture, level_numbers_fit, TellsBad, Stands};

use crate::bands::copy_rows;
use base::plane::zero;
use base::status::OutOfRange;
use filters::filter::LiftingFilter;
use lifting::frame::Frame;
use lines::buffers::LineBuffer;
use sweep::gaps::gap_of;
use sweep::level::{Level, sweep_level};
use sweep::rows::Crop;

// The sizes of a component: its padded width, the size of its low band, its depth, and the width and height of its samples.
#[derive(Clone, Copy)]
pub struct Extent {
    pub padded_width: usize,
    pub low_rows: usize,
    pub low_columns: usize,
    pub depth: usize,
    pub width: usize,
    pub height: usize,
}

// Builds the picture of depth n on the picture of depth n − 1, in the work plane; at the component's depth its first rows and columns in the
// samples, and then the work plane is all zeros. An error is the first level that assigns a number outside 32 bits, which is the job's place; then the
// numbers of both planes are of no use.
pub fn synthesise_levels(
    work: &mut [i32],
    samples: &mut [i32],
    coefficients: &[i32],
    halves: &mut LineBuffer,
    extent: Extent,
    filter: LiftingFilter,
    n: usize,
) -> Result<(), usize>
    requires planes { Planes extent work.old samples.old coefficients.now }
    requires well_formed { WellFormed filter × (n ≤ extent.depth) }
    ensures told { TellsBad result (first_bad_at filter extent coefficients.now n) }
    ensures done { OnOk result (Stands extent n (picture_at filter extent coefficients.now n) work.old work.new samples.new) }
{
    if n == 0 {
        put_low_band(work, samples, coefficients, extent);
        return Ok(());
    }
    let below = n - 1;
    synthesise_levels(work, samples, coefficients, halves, extent, filter, below)?;
    match synthesise_level(work, samples, coefficients, halves, extent, filter, below) {
        Ok(()) => Ok(()),
        Err(OutOfRange) => Err(n),
    }
}

// Puts the low band, which is the picture of depth 0, where it stands.
fn put_low_band(work: &mut [i32], samples: &mut [i32], coefficients: &[i32], extent: Extent)
    requires { Planes extent work.old samples.old coefficients.now }
    ensures { Stands extent 0 (coefficient_picture extent coefficients.now) work.old work.new samples.new }
{
    let padded = extent.padded_width;
    let width = extent.width;
    if extent.depth == 0 {
        copy_rows(samples, width, coefficients, padded, extent.height, width);
        zero(work);
        return;
    }
    let stride = padded << extent.depth;
    copy_rows(
        work,
        stride,
        coefficients,
        padded,
        extent.low_rows,
        extent.low_columns,
    );
}

// Builds the picture of the next level on the one that stands in the work plane: interleaves its bands, filters every column, then every
// row, with the shift. Refuses where it assigns a number outside 32 bits; then the numbers of both planes are of no use.
fn synthesise_level(
    work: &mut [i32],
    samples: &mut [i32],
    coefficients: &[i32],
    halves: &mut LineBuffer,
    extent: Extent,
    filter: LiftingFilter,
    below: usize,
) -> Result<(), OutOfRange>
    requires planes { Planes extent work.old samples.old coefficients.now }
    requires well_formed { WellFormed filter × (suc below ≤ extent.depth) }
    ensures told { is_ok result ≡ level_numbers_fit filter extent below (level_input extent work.old coefficients.now below) }
    ensures done { is_ok result ≡ true → Stands extent (suc below)
        (level_picture filter extent below (level_input extent work.old coefficients.now below))
        work.old work.new samples.new }
{
    let frame = next_frame(extent, below);
    let gap = gap_of(filter);
    let sizes = Crop {
        width: extent.width,
        height: extent.height,
    };
    let crop = (below + 1 == extent.depth).then_some(sizes);
    let level = Level { frame, gap, crop };
    sweep_level(
        work,
        samples,
        coefficients,
        extent.padded_width,
        halves,
        level,
        filter,
    )
}

// Where the picture of the next level stands in the work plane.
fn next_frame(extent: Extent, below: usize) -> Frame
    requires { (extent.depth ≤ 4) × (suc below ≤ extent.depth) × (extent.padded_width ≤ 4096)
        × (extent.low_rows ≤ 4096) × (extent.low_columns ≤ 4096) }
    ensures { (result.stride ≡ extent.padded_width * 2 ^ (extent.depth - suc below))
        × (result.band_rows ≡ size_at extent.low_rows below) × (result.band_columns ≡ size_at extent.low_columns below) }
{
    Frame {
        stride: extent.padded_width << (extent.depth - 1 - below),
        band_rows: extent.low_rows << below,
        band_columns: extent.low_columns << below,
    }
}
