// Document 01, "One subband": what a header announces, read or refused, and the prediction of a band.
ghost use Rattle.std.specs.Prelude.{◌≡◌, ◌+◌, ◌/◌, ◌≤◌, ◌<◌, ◌^◌, length};
ghost use Rattle.component.specs.Subbands.{subband_count};
ghost use Rattle.coefficients.specs.Scaling.{scale_of};
ghost use Rattle.coefficients.specs.Values.{after};
ghost use Rattle.codeblocks.specs.Blocks.{Placed};
ghost use Rattle.unpack.specs.Header.{read_as};
ghost use Rattle.unpack.specs.Subband.{codeblocks_of, subband_data, headed, predicted_band};
ghost use Rattle.unpack.specs.Bounds.{Checked, ClearBand, SoundHeader};

use crate::header::ReadHeader;
use base::limits::QUANTISER_MOST;
use base::status::{Fault, OutOfRange, Refusal};
use codeblocks::{CodeblockGrid, Position, read_codeblocks};
use coefficients::quantiser::{quantiser_of, small_values};
use coefficients::reading::{Cursor, Quantiser};
use coefficients::values::Decoder;
use component::parameters::Parameters;
use component::sizes::padded_size;
use component::subbands::subband_at;
use lookups::CodeTable;
use prediction::predict;

// What the subbands of a component are read by: its parameters, which passed the checks, its bytes, and the table of codes.
#[derive(Clone, Copy)]
pub(crate) struct Reader<'a> {
    pub(crate) p: Parameters,
    pub(crate) bytes: &'a [u8],
    pub(crate) table: &'a CodeTable,
    pub(crate) ghost checked: { Checked p },
}

impl Reader<'_> {
    // Reads what a header announces: checks the quantiser index, and then that the stated length remains. That the subband lies in the plane stays
    // a clause, here and below: in a struct it would have the plane with it, and each call would have to lend that on.
    #[tactic(auto, unfolding(crate::specs::Subband::headed, crate::specs::Subband::checked_data))]
    pub(crate) fn read_headed(
        self,
        plane: &mut [i32],
        blocks: CodeblockGrid,
        header: ReadHeader,
    ) -> Result<usize, Fault>
        requires { Placed blocks plane.old × ClearBand blocks plane.old × SoundHeader (read_as header) }
        ensures { after result plane.new ≡ headed blocks self.entry.bytes.now self.entry.p.intra (read_as header) plane.old }
    {
        match header {
            ReadHeader::Skipped { bit } => Ok(bit),
            ReadHeader::Coded { index, bit, size } => {
                if QUANTISER_MOST < index {
                    return Err(Fault {
                        refusal: Refusal::Quantiser,
                        bit,
                    });
                }
                if self.bytes.len() < bit / 8 + size {
                    return Err(Fault {
                        refusal: Refusal::BytesEndEarly,
                        bit: 8 * self.bytes.len(),
                    });
                }
                let q = quantiser_of(self.p.intra, index);
                self.read_data(plane, blocks, q, bit, size)
            }
        }
    }

    // Reads the codeblocks from data of a stated length. Goes on where the length ends.
    fn read_data(
        self,
        plane: &mut [i32],
        blocks: CodeblockGrid,
        q: Quantiser,
        bit: usize,
        size: usize,
    ) -> Result<usize, Fault>
        requires { Placed blocks plane.old × ClearBand blocks plane.old × (bit < 2 ^ 62) × (size < 2 ^ 32)
            × (bit / 8 + size ≤ length self.bytes.now) }
        ensures { after result plane.new ≡ subband_data blocks self.entry.bytes.now (scale_of q) bit size plane.old }
    {
        let start = bit / 8;
        let end = start + size;
        let data = &self.bytes[start..end];
        let cursor = Cursor {
            bit: 0,
            end: 8 * size,
            stated: true,
            origin: bit,
        };
        let first = Position {
            begun: 0,
            values: 0,
        };
        let small = small_values(q);
        let decoder = Decoder {
            q,
            table: self.table,
            small: &small,
        };
        let reached = read_codeblocks(plane, blocks, first, data, cursor, decoder);
        reached.progress?;
        Ok(bit + 8 * size)
    }

    // The codeblocks of subband k.
    #[tactic(auto, unfolding(crate::specs::Subband::codeblocks_of))]
    pub(crate) fn codeblocks_of(self, k: usize) -> CodeblockGrid
        requires { k < subband_count self.p.depth }
        ensures { result ≡ codeblocks_of self.entry.p k }
    {
        let p = self.p;
        let depth = p.depth as usize;
        let stride = padded_size(depth, p.width as usize);
        let subband = subband_at(depth, stride, padded_size(depth, p.height as usize), k);
        let level = subband.level;
        CodeblockGrid {
            stride,
            subband,
            across: p.codeblocks_across[level] as usize,
            down: p.codeblocks_down[level] as usize,
        }
    }
}

// Predicts the values of a subband at the top left of the plane. Reading goes on where it was.
pub(crate) fn predict_band(
    plane: &mut [i32],
    blocks: CodeblockGrid,
    bit: usize,
) -> Result<usize, Fault>
    requires { Placed blocks plane.old }
    ensures { after result plane.new ≡ predicted_band blocks bit plane.old }
{
    let s = blocks.subband;
    match predict(plane, blocks.stride, s.width, s.height) {
        Ok(()) => Ok(bit),
        Err(OutOfRange) => Err(Fault {
            refusal: Refusal::ValueOutOfRange,
            bit,
        }),
    }
}
