// Document 01, "One subband": the header, which is the length and the quantiser index.
ghost use Rattle.std.specs.Prelude.{◌≡◌, ◌<◌, ◌^◌};
ghost use Rattle.unpack.specs.Header.{header_of, boundary, header_at};

use base::status::Fault;
use exp_golomb::codes::read_unsigned;

// An end that no header reaches.
const NO_END: usize = usize::MAX;

// What a header says that was read.
#[derive(Clone, Copy, Debug, PartialEq, Eq)]
pub enum ReadHeader {
    // There are no data; reading goes on at a bit.
    Skipped { bit: usize },
    // The data's quantiser index, the bit at which they start, and their length in bytes.
    Coded { index: u32, bit: usize, size: usize },
}

// Reads the header that starts at a bit.
pub fn read_header(bytes: &[u8], at: usize) -> Result<ReadHeader, Fault>
    requires { at < 2 ^ 62 }
    ensures { header_of result ≡ header_at bytes.now at }
{
    let length = read_unsigned(bytes, NO_END, false, at)?;
    if length.size == 0 {
        return Ok(ReadHeader::Skipped {
            bit: boundary(length.next),
        });
    }
    let index = read_unsigned(bytes, NO_END, false, length.next)?;
    Ok(ReadHeader::Coded {
        index: index.size,
        bit: boundary(index.next),
        size: length.size as usize,
    })
}

// The first bit of a byte, at a bit or after it.
#[tactic(auto, unfolding(crate::specs::Header::boundary))]
fn boundary(bit: usize) -> usize
    requires { bit < 2 ^ 63 }
    ensures { result ≡ boundary bit }
{
    bit.next_multiple_of(8)
}
