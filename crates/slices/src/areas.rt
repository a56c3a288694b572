// Document 02, request Four: the rectangles of a slice, and the quantiser index of each of its subbands.
ghost use Rattle.std.specs.Prelude.{◌≡◌, ◌*◌, ◌/◌, ◌%◌, ◌≤◌, ◌<◌};
ghost use Rattle.component.specs.Reciprocal.{reciprocal_of};
ghost use Rattle.component.specs.Subbands.{subband_count};
ghost use Rattle.slices.specs.Areas.{grid_of, slice_area, subband_index, indices_fit};
ghost use Rattle.slices.specs.Bounds.{Checked, Whole};

use crate::parameters::{Grid, Picture};
use base::limits::QUANTISER_MOST;
use coefficients::reading::Rectangle;
use component::partition::{part_start_by, reciprocal_of};
use component::sizes::padded_size;
use component::subbands::{subband_at, subband_count};

// A slice of a component: its number, its column and row among the slices, and what multiplies in place of divisions by their counts.
#[derive(Clone, Copy)]
pub struct Slice {
    pub grid: Grid,
    pub number: usize,
    pub x: usize,
    pub y: usize,
    pub across_reciprocal: usize,
    pub down_reciprocal: usize,
    pub ghost whole: { Whole grid },
    pub ghost counted: { number < grid.across * grid.down },
    pub ghost column: { x ≡ number % grid.across },
    pub ghost row: { y ≡ number / grid.across },
    pub ghost across_by: { across_reciprocal ≡ reciprocal_of grid.across },
    pub ghost down_by: { down_reciprocal ≡ reciprocal_of grid.down },
}

// The plane of a component of a width and height.
pub fn grid_of(p: Picture, width: u32, height: u32) -> Grid
    requires { Checked p × (width ≤ 4096) × (height ≤ 4096) }
    ensures { (result ≡ grid_of p width height) × Whole result }
{
    let depth = p.depth as usize;
    Grid {
        depth,
        width: padded_size(depth, width as usize),
        height: padded_size(depth, height as usize),
        across: p.slices_across as usize,
        down: p.slices_down as usize,
    }
}

impl Slice {
    // Slice s of a component.
    pub fn new(grid: Grid, s: usize) -> Slice
        requires { Whole grid × (s < grid.across * grid.down) }
        ensures { (result.grid ≡ grid) × (result.number ≡ s) }
    {
        Slice {
            grid,
            number: s,
            x: s % grid.across,
            y: s / grid.across,
            across_reciprocal: reciprocal_of(grid.across),
            down_reciprocal: reciprocal_of(grid.down),
        }
    }

    // The rectangle that the slice has of subband k.
    pub fn area_at(self, k: usize) -> Rectangle
        requires { k < subband_count self.grid.depth }
        ensures { result ≡ slice_area self.grid self.number k }
    {
        let g = self.grid;
        let b = subband_at(g.depth, g.width, g.height, k);
        let left = part_start_by(b.width, self.across_reciprocal, self.x);
        let right = part_start_by(b.width, self.across_reciprocal, self.x + 1);
        let top = part_start_by(b.height, self.down_reciprocal, self.y);
        let bottom = part_start_by(b.height, self.down_reciprocal, self.y + 1);
        Rectangle {
            start: (b.top + top) * g.width + (b.left + left),
            stride: g.width,
            width: right - left,
            height: bottom - top,
        }
    }
}

// The quantiser index of subband k, where the slice has an index. The picture is not copied for a matrix entry of each rectangle.
#[tactic(auto, unfolding(crate::specs::Areas::subband_index))]
pub fn subband_index(p: &Picture, index: u32, k: usize) -> u32
    requires { k < 13 }
    ensures { result ≡ subband_index p.now index k }
{
    index.saturating_sub(p.matrix[k])
}

// Whether the index of every subband is in range.
pub fn indices_fit(p: Picture, index: u32) -> bool
    requires { Checked p }
    ensures { result ≡ indices_fit p index }
{
    let count = subband_count(p.depth as usize);
    (0..count).all(|k| subband_index(&p, index, k) <= QUANTISER_MOST)
}
