// Document 01, "One subband": the values of a rectangle of a plane, in raster order.
#![tactic(auto)]

ghost use Rattle.std.specs.Prelude.{◌≤◌, ◌<◌, ◌^◌};
ghost use Rattle.coefficients.specs.Portions.{Sound};
ghost use Rattle.coefficients.specs.Scaling.{scale_of};
ghost use Rattle.rectangles.specs.Areas.{size_of, value_index, Inside, ClearFrom};
ghost use Rattle.rectangles.specs.Layouts.{Covers};
ghost use Rattle.rectangles.specs.Portions.{ReadsOn};

use coefficients::reading::{Cursor, Portion, Rectangle};
use coefficients::values::{Decoder, Layout, read_run};

// Reads the values of a rectangle from one on: of data of a stated length all, or up to one that is refused; of other data until bits are
// wanting (see read_run). The count is of all its values that have been read, those before the first included.
pub fn read_values(
    plane: &mut [i32],
    area: Rectangle,
    from: usize,
    bytes: &[u8],
    cursor: Cursor,
    decoder: Decoder,
) -> Portion
    requires { Inside area plane.old × ClearFrom area from plane.old × Sound cursor }
    ensures { ReadsOn bytes.now cursor (scale_of decoder.entry.q) area from plane.old result plane.new }
{
    let total = area.height * area.width;
    let mut next = cursor;
    let mut i = from;
    // By as many as were read.
    while i < total {
        let layout = layout_of(area, i);
        let part = read_run(plane, layout, i, bytes, next, decoder);
        i += part.count;
        let Ok(bit) = part.progress else {
            return Portion {
                count: i,
                progress: part.progress,
                short: false,
            };
        };
        if part.short {
            return Portion {
                count: i,
                progress: part.progress,
                short: true,
            };
        }
        next.bit = bit;
    }
    Portion {
        count: i,
        progress: Ok(next.bit),
        short: false,
    }
}

// Where the values from value i on go that are read in one run: all that are left where rows are short or there is but one, else those of
// the row. A value stands after as many gaps as there are rows before its own; in one row that is a number, in more it takes a multiplication.
fn layout_of(area: Rectangle, i: usize) -> Layout
    requires { (area.width ≤ area.stride) × (area.stride ≤ 4096) × (area.height ≤ 4096) × (i < size_of area) × (value_index area i < 2 ^ 64) }
    ensures { Covers area i result }
{
    let gap = area.stride - area.width;
    if area.height == 1 {
        return Layout {
            start: area.start,
            count: area.width,
            reciprocal: 0,
            gap,
        };
    }
    if area.width <= 64 {
        return Layout {
            start: area.start,
            count: area.height * area.width,
            reciprocal: 16777216 / area.width + 1,
            gap,
        };
    }
    let row = i / area.width;
    Layout {
        start: area.start + row * gap,
        count: (row + 1) * area.width,
        reciprocal: 0,
        gap,
    }
}
