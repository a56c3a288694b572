// Document 01, "One subband": the unpack job, from bytes to coefficients.
#![tactic(auto)]

pub mod data;
pub mod header;

ghost use Rattle.std.specs.Prelude.{◌≡◌, ◌<◌, ◌^◌, length};
ghost use Rattle.component.specs.Answers.{answer_of};
ghost use Rattle.component.specs.Checks.{area_of};
ghost use Rattle.component.specs.Subbands.{subband_count};
ghost use Rattle.coefficients.specs.Reading.{goes_on};
ghost use Rattle.coefficients.specs.Values.{after};
ghost use Rattle.unpack.specs.Subband.{codeblocks_of, subband};
ghost use Rattle.unpack.specs.Job.{outcome, subbands_from, unpacked};
ghost use Rattle.unpack.specs.Bounds.{Checked, ClearBand, ClearBandsFrom};

use crate::data::{Reader, predict_band};
use crate::header::read_header;
use base::plane::zero;
use base::status::Fault;
use component::checks::check;
use component::parameters::{Job, Lengths, Parameters, Refused};
use component::subbands::subband_count;
use lookups::CodeTable;

// Reads the coefficients of a component from its bytes, and answers the number of bytes used. Refusals 1, 2, 4 and 5 leave the plane as it was;
// 6 to 9 leave zeros, with the subband as their place.
pub fn unpack(p: Parameters, bytes: &[u8], coefficients: &mut [i32]) -> Result<usize, Refused>
    ensures { outcome (answer_of result) coefficients.new ≡ unpacked p bytes.now coefficients.old }
{
    let lengths = Lengths {
        coefficients: coefficients.len(),
        work: 0,
        samples: 0,
    };
    check(Job::Unpack, p, lengths)?;
    zero(coefficients);
    read_subbands(p, bytes, coefficients)
}

// Reads the subbands in stream order into a plane of zeros. Where one is refused, all are zeros again. The table stands here, and not beside the
// checks: a function pays for its arrays where it begins, and a call that a check refuses needs none.
fn read_subbands(p: Parameters, bytes: &[u8], plane: &mut [i32]) -> Result<usize, Refused>
    requires { Checked p × (length plane.old ≡ area_of p) × ClearBandsFrom p 0 plane.old }
    ensures { outcome (answer_of result) plane.new ≡ subbands_from p bytes.now (subband_count p.depth) 0 0 plane.old }
{
    let table = CodeTable::new();
    let reader = Reader {
        p,
        bytes,
        table: &table,
    };
    let count = subband_count(p.depth as usize);
    let mut at = 0;
    for k in 0..count {
        match reader.read_subband(plane, k, at) {
            Ok(bit) => at = bit,
            Err(fault) => {
                zero(plane);
                return Err(Refused {
                    refusal: fault.refusal,
                    place: k,
                });
            }
        }
    }
    Ok(at / 8)
}

impl Reader<'_> {
    // Reads subband k from a bit on, into zeros: its header, its data, and its prediction where the rules say so. Goes on at the bit after it.
    // It is not inlined, which leaves its loops more registers.
    #[inline(never)]
    fn read_subband(self, plane: &mut [i32], k: usize, at: usize) -> Result<usize, Fault>
        requires { (k < subband_count self.p.depth) × (length plane.old ≡ area_of self.p)
            × ClearBand (codeblocks_of self.p k) plane.old × (at < 2 ^ 61) }
        ensures { after result plane.new ≡ subband self.entry.p self.entry.bytes.now k (goes_on at plane.old) }
    {
        let blocks = self.codeblocks_of(k);
        let header = read_header(self.bytes, at)?;
        let bit = self.read_headed(plane, blocks, header)?;
        if k != 0 || !self.p.intra {
            return Ok(bit);
        }
        predict_band(plane, blocks, bit)
    }
}
