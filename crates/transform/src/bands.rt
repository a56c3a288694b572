// Document 01, "Synthesis and analysis": a picture copied from plane to plane, for the low band and for pad removal.
ghost use Rattle.std.specs.Prelude.{◌*◌, ◌≤◌, length};
ghost use Rattle.filters.specs.Planes.{picture_of};
ghost use Rattle.filters.specs.Pictures.{Agree};

use base::plane;

// Copies the first rows and columns of one picture to another.
pub fn copy_rows(
    to: &mut [i32],
    to_stride: usize,
    from: &[i32],
    from_stride: usize,
    rows: usize,
    columns: usize,
)
    requires columns_le_to_stride { (columns ≤ to_stride) × (rows * to_stride ≤ length to.old) }
    requires columns_le_from_stride { (columns ≤ from_stride) × (rows * from_stride ≤ length from.now) }
    ensures { Agree rows columns (picture_of to_stride to.new) (picture_of from_stride from.now) }
{
    for row in 0..rows {
        let to_row = row * to_stride;
        let from_row = row * from_stride;
        plane::copy(to, to_row, from, from_row, columns);
    }
}
