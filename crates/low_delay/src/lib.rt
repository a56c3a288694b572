// Document 02, request Four: low delay slices, from bytes to the coefficients of three components.
#![tactic(auto)]

pub mod checks;
pub mod finish;
pub mod headers;
pub mod parameters;
pub mod planes;
pub mod reader;
pub mod slice;
pub mod starts;

ghost use Rattle.std.specs.Prelude.{◌≡◌};
ghost use Rattle.component.specs.Answers.{answer_of};
ghost use Rattle.slices.specs.Planes.{planes_of};
ghost use Rattle.slices.specs.Areas.{slice_count};
ghost use Rattle.slices.specs.Bounds.{Checked, Lengths};
ghost use Rattle.slices.specs.Stores.{planes_behind, SamePlanes};
ghost use Rattle.low_delay.specs.Job.{outcome, slices_from, unpacked};
ghost use Rattle.low_delay.specs.Bounds.{SoundFraction};

use crate::checks::check;
use crate::finish::finish;
use crate::parameters::LowDelay;
use crate::planes::zero_planes;
use crate::reader::SliceReader;
use crate::starts::slice_count;
use coefficients::quantiser::factor_table;
use component::parameters::Refused;
use lookups::CodeTable;
use slices::stores::ThreePlanes;
use slices::tables::{Tables, fill_small_table};

// Reads the coefficients of luma, C1 and C2 from the bytes of a picture. Refusals 1, 2, 13 and 5 leave the planes as they were; 6 to 9 and
// 14 leave zeros, with the slice as their place, or the number of slices where prediction is refused; the place of an acceptance is the
// number of bytes used.
pub fn unpack_low_delay(
    p: LowDelay,
    bytes: &[u8],
    luma: &mut [i32],
    first: &mut [i32],
    second: &mut [i32],
) -> Result<usize, Refused>
    ensures { outcome (answer_of result) luma.new first.new second.new
        ≡ unpacked p bytes.now (planes_of luma.old first.old second.old) }
{
    check(p, luma.len(), first.len(), second.len())?;
    let mut planes = ThreePlanes {
        luma,
        first,
        second,
    };
    zero_planes(&mut planes);
    read_slices(p, bytes, &mut planes)
}

// Reads the slices in raster order, and then predicts where the rules say so. The tables stand here, and not beside the checks: a function pays for
// its arrays where it begins, and a call that a check refuses needs none.
fn read_slices(p: LowDelay, bytes: &[u8], planes: &mut ThreePlanes<'_>) -> Result<usize, Refused>
    requires { Checked p.picture × SoundFraction p
        × Lengths p.picture planes.old.luma.now planes.old.first.now planes.old.second.now }
    ensures same { SamePlanes planes.old planes.new }
    ensures ended { outcome (answer_of result) planes.new.luma.now planes.new.first.now planes.new.second.now
        ≡ slices_from p bytes.now (slice_count p.picture) 0 (planes_behind planes.old) }
{
    let mut run = [0; 8192];
    let intra = p.picture.intra;
    let codes = CodeTable::new();
    let mut small = [[0; 32]; 116];
    fill_small_table(&mut small, intra);
    let factors = factor_table();
    let tables = Tables::new(intra, &codes, &small, &factors);
    let reader = SliceReader { p, bytes, tables };
    let count = slice_count(p.picture);
    for k in 0..count {
        if let Err(fault) = reader.read_slice(planes, k, &mut run) {
            zero_planes(planes);
            return Err(Refused {
                refusal: fault.refusal,
                place: k,
            });
        }
    }
    finish(p, planes)
}
