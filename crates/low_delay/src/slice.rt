// Document 02, request Four: one low delay slice: its bytes, its header, and its two parts.
ghost use Rattle.std.specs.Prelude.{ℕ, suc, ◌+◌, ◌*◌, ◌<◌, ◌^◌, length};
ghost use Rattle.coefficients.specs.Reading.{goes_on};
ghost use Rattle.slices.specs.Areas.{slice_count};
ghost use Rattle.slices.specs.Parts.{parts_values};
ghost use Rattle.slices.specs.Bounds.{Lengths};
ghost use Rattle.slices.specs.Stores.{planes_behind, SamePlanes};
ghost use Rattle.slices.specs.Reads.{Blank, Left};
ghost use Rattle.low_delay.specs.Slices.{slice_start, slice};
ghost use Rattle.low_delay.specs.Bounds.{SoundParts, announced};

use crate::headers::{Header, read_header};
use crate::reader::SliceReader;
use crate::starts::slice_start;
use base::status::{Fault, Refusal};
use runs::Span;
use slices::parameters::Holder;
use slices::parts::{SlicePart, read_part};
use slices::stores::ThreePlanes;

// What is read of the bytes of a slice, which start at a bit of all bytes, after its header: luma's part, and that of C1 and C2.
#[derive(Clone, Copy)]
pub struct TwoParts {
    pub number: usize,
    pub start: usize,
    pub header: Header,
}

impl SliceReader<'_, '_> {
    // Reads a slice, if its bytes are there. Goes on at the bit after it. After a refusal the planes and the run are free.
    pub fn read_slice(
        self,
        planes: &mut ThreePlanes<'_>,
        number: usize,
        run: &mut [i32],
    ) -> Result<usize, Fault>
        requires counted { number < slice_count self.p.picture }
        requires planes { Lengths self.p.picture planes.old.luma.now planes.old.first.now planes.old.second.now × Blank run.old }
        ensures same { SamePlanes planes.old planes.new }
        ensures read { Left (8 * slice_start self.entry.p (suc number)) result (planes_behind planes.new) run.new
            (slice self.entry.p self.entry.bytes.now number (planes_behind planes.old)) }
    {
        let start = slice_start(self.p, number);
        let next = slice_start(self.p, number + 1);
        if self.bytes.len() < next {
            return Err(Fault {
                refusal: Refusal::BytesEndEarly,
                bit: 8 * start,
            });
        }
        let own = &self.bytes[start..next];
        let header = read_header(self.p.picture, own, 8 * start)?;
        let parts = TwoParts {
            number,
            start: 8 * start,
            header,
        };
        self.read_parts(planes, parts, own, run)
    }

    // Reads the two parts of a slice from its own bytes. Goes on at the bit of all bytes at which the slice ends.
    fn read_parts(
        self,
        planes: &mut ThreePlanes<'_>,
        parts: TwoParts,
        own: &[u8],
        run: &mut [i32],
    ) -> Result<usize, Fault>
        requires sound { (parts.number < slice_count self.p.picture) × (parts.start + 8 * length own.now < 2 ^ 63)
            × SoundParts self.p.picture (length own.now) parts.header }
        requires planes { Lengths self.p.picture planes.old.luma.now planes.old.first.now planes.old.second.now × Blank run.old }
        ensures same { SamePlanes planes.old planes.new }
        ensures read { (at : ℕ) → Left (parts.start + 8 * length own.now) result (planes_behind planes.new) run.new
            (parts_values self.entry.p.picture parts.number (announced own.now parts)
            (goes_on at (planes_behind planes.old))) }
    {
        let Header {
            index,
            from,
            middle,
        } = parts.header;
        let end = 8 * own.len();
        let luma = SlicePart {
            picture: self.p.picture,
            slice: parts.number,
            holder: Holder::Luma,
            index,
            span: Span {
                bit: from,
                end: middle,
                origin: parts.start,
            },
        };
        read_part(planes, luma, own, run, self.tables)?;
        let both = SlicePart {
            picture: self.p.picture,
            slice: parts.number,
            holder: Holder::Both,
            index,
            span: Span {
                bit: middle,
                end,
                origin: parts.start,
            },
        };
        read_part(planes, both, own, run, self.tables)?;
        Ok(parts.start + end)
    }
}
