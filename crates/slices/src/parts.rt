// Document 02, request Four: the values of a part of a slice, read into three planes.
ghost use Rattle.std.specs.Prelude.{◌≡◌, ◌+◌, ◌*◌, ◌≤◌, ◌<◌, ◌^◌};
ghost use Rattle.coefficients.specs.Reading.{goes_on};
ghost use Rattle.coefficients.specs.Scaling.{scale_of};
ghost use Rattle.runs.specs.Runs.{SoundSpan};
ghost use Rattle.slices.specs.Areas.{slice_count};
ghost use Rattle.slices.specs.Parts.{grid_for, area_values, part_values};
ghost use Rattle.slices.specs.Bounds.{Checked, Lengths, Indexed, Whole};
ghost use Rattle.slices.specs.Stores.{turns, Fits, planes_behind, SamePlanes};
ghost use Rattle.slices.specs.Reads.{Blank, data_of, row_of, Left};

use crate::areas::{Slice, grid_of, subband_index};
use crate::parameters::{Grid, Holder, Picture};
use crate::stores::ThreePlanes;
use crate::tables::Tables;
use base::plane::zero_part;
use base::status::Fault;
use coefficients::reading::Rectangle;
use coefficients::values::Decoder;
use component::subbands::subband_count;
use runs::{Span, read_run};

// How many values are read before they are put where they belong: a row of two planes, or more rows.
const RUN: usize = 8192;

// A part of slice number `slice` of a picture that passed the checks: whose values it has, the slice's quantiser index, and where its data stand.
#[derive(Clone, Copy)]
pub struct SlicePart {
    pub picture: Picture,
    pub slice: usize,
    pub holder: Holder,
    pub index: u32,
    pub span: Span,
    pub ghost checked: { Checked picture },
    pub ghost counted: { slice < slice_count picture },
    pub ghost indexed: { Indexed picture index },
    pub ghost sound: { SoundSpan span },
}

impl SlicePart {
    // The plane, or each of two, that its values go to.
    fn own_grid(self) -> Grid
        ensures { (result ≡ grid_for self.picture self.holder) × Whole result }
    {
        let p = self.picture;
        match self.holder {
            Holder::Luma => grid_of(p, p.luma_width, p.luma_height),
            Holder::Both => grid_of(p, p.chroma_width, p.chroma_height),
        }
    }
}

// A rectangle of a part: whose values it has, where they go, where its data stand, and what they are decoded by.
#[derive(Clone, Copy)]
pub struct Piece<'a> {
    pub holder: Holder,
    pub area: Rectangle,
    pub span: Span,
    pub decoder: Decoder<'a>,
}

// Reads the values of a part: all, or up to one that is refused. They go through a run of zeros, which holds zeros again after the last. After a
// refusal the planes and the run are free; a job zeroes its planes then. So it is of the functions below.
// `Lengths` and `Blank` stay clauses, here and in low_delay: they are of planes and of a run that change, and a struct that said them would have to
// lend these on at each call; nor does a run hold zeros after a refusal.
pub fn read_part(
    planes: &mut ThreePlanes<'_>,
    part: SlicePart,
    bytes: &[u8],
    run: &mut [i32],
    tables: Tables<'_>,
) -> Result<usize, Fault>
    requires planes { Lengths part.picture planes.old.luma.now planes.old.first.now planes.old.second.now × Blank run.old }
    requires tables { tables.intra ≡ part.picture.intra }
    ensures same { SamePlanes planes.old planes.new }
    ensures read { Left part.span.end result (planes_behind planes.new) run.new
        (part_values part.picture part.slice part.index (data_of bytes.now part.span) part.holder
        (goes_on part.span.bit (planes_behind planes.old))) }
{
    let p = part.picture;
    let holder = part.holder;
    let slice = Slice::new(part.own_grid(), part.slice);
    let count = subband_count(p.depth as usize);
    let mut span = part.span;
    for k in 0..count {
        let piece = Piece {
            holder,
            area: slice.area_at(k),
            span,
            decoder: tables.decoder(subband_index(&p, part.index, k)),
        };
        span.bit = read_area(planes, piece, bytes, run)?;
    }
    Ok(span.bit)
}

// Reads the values of a rectangle, all rows at once where the run has room for them.
fn read_area(
    planes: &mut ThreePlanes<'_>,
    piece: Piece<'_>,
    bytes: &[u8],
    run: &mut [i32],
) -> Result<usize, Fault>
    requires { Fits piece.holder piece.area (planes_behind planes.old) × SoundSpan piece.span × Blank run.old }
    ensures same { SamePlanes planes.old planes.new }
    ensures read { Left piece.entry.span.end result (planes_behind planes.new) run.new
        (area_values (data_of bytes.now piece.entry.span) (scale_of piece.entry.decoder.q) piece.entry.holder piece.entry.area
        (goes_on piece.entry.span.bit (planes_behind planes.old))) }
{
    let area = piece.area;
    if piece.holder.values_of(area.height * area.width) <= RUN {
        return read_rows(planes, piece, bytes, run);
    }
    let mut row = piece;
    for y in 0..area.height {
        row.area = row_of(area, y);
        row.span.bit = read_rows(planes, row, bytes, run)?;
    }
    Ok(row.span.bit)
}

// Row y of a rectangle.
fn row_of(area: Rectangle, y: usize) -> Rectangle
    requires { area.start + y * area.stride < 2 ^ 64 }
    ensures { result ≡ row_of area y }
{
    Rectangle {
        start: area.start + y * area.stride,
        height: 1,
        ..area
    }
}

// Reads the values of a rectangle that the run has room for.
fn read_rows(
    planes: &mut ThreePlanes<'_>,
    piece: Piece<'_>,
    bytes: &[u8],
    run: &mut [i32],
) -> Result<usize, Fault>
    requires fits { Fits piece.holder piece.area (planes_behind planes.old)
        × (piece.area.height * piece.area.width * turns piece.holder ≤ 8192) }
    requires reads { SoundSpan piece.span × Blank run.old }
    ensures same { SamePlanes planes.old planes.new }
    ensures read { Left piece.entry.span.end result (planes_behind planes.new) run.new
        (area_values (data_of bytes.now piece.entry.span) (scale_of piece.entry.decoder.q) piece.entry.holder piece.entry.area
        (goes_on piece.entry.span.bit (planes_behind planes.old))) }
{
    let area = piece.area;
    let n = piece.holder.values_of(area.height * area.width);
    let bit = read_run(run, n, bytes, piece.span, piece.decoder)?;
    planes.store_rows(piece.holder, area, run);
    zero_part(run, 0, n);
    Ok(bit)
}
