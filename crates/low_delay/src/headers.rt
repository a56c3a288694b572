// Document 02, request Four: the header of a low delay slice, which is its quantiser index and luma's bit length.
ghost use Rattle.std.specs.Prelude.{◌≡◌, ◌+◌, ◌*◌, ◌^◌, ◌≤◌, ◌<◌, IfOk, length};
ghost use Rattle.exp_golomb.specs.Bits.{bits_from};
ghost use Rattle.slices.specs.Bounds.{Checked};
ghost use Rattle.low_delay.specs.Slices.{length_bits, low_delay_parts};
ghost use Rattle.low_delay.specs.Bounds.{parts_of, SoundParts};

use base::status::{Fault, Refusal};
use slices::areas::indices_fit;
use slices::parameters::Picture;

// How many bits the quantiser index of a slice has.
const INDEX_BITS: usize = 7;

// What a header says: the slice's quantiser index, and the bits at which luma's part starts and ends. The rest is that of C1 and C2.
#[derive(Clone, Copy)]
pub struct Header {
    pub index: u32,
    pub from: usize,
    pub middle: usize,
}

// Reads the header of a slice, whose own bytes start at a bit of all bytes.
pub fn read_header(p: Picture, own: &[u8], start: usize) -> Result<Header, Fault>
    requires { Checked p × (1 ≤ length own.now) × (length own.now ≤ 65535) × (start < 2 ^ 62) }
    ensures result_value { parts_of own.now start result ≡ low_delay_parts p (length own.now) own.now start }
    ensures sound_header { IfOk result (SoundParts p (length own.now)) }
{
    let index = read_bits(own, 0, INDEX_BITS) as u32;
    let n = length_bits(own.len());
    let from = INDEX_BITS + n;
    let middle = from + read_bits(own, INDEX_BITS, n);
    if 8 * own.len() < middle {
        return Err(Fault {
            refusal: Refusal::LumaLength,
            bit: start + from,
        });
    }
    if !indices_fit(p, index) {
        return Err(Fault {
            refusal: Refusal::Quantiser,
            bit: start + from,
        });
    }
    Ok(Header {
        index,
        from,
        middle,
    })
}

// The n bits from a bit on, as a number.
fn read_bits(bytes: &[u8], at: usize, n: usize) -> usize
    requires { (at + n ≤ 8 * length bytes.now) × (length bytes.now ≤ 65535) × (n ≤ 32) }
    ensures { (result ≡ bits_from bytes.now at n) × (result < 2 ^ n) }
{
    let mut v = 0;
    for i in 0..n {
        let bit = at + i;
        v = 2 * v + (usize::from(bytes[bit / 8]) >> (7 - bit % 8)) % 2;
    }
    v
}

// How many bits luma's bit length has in a slice of so many bytes.
fn length_bits(size: usize) -> usize
    requires { (1 ≤ size) × (size ≤ 65535) }
    ensures { (result ≡ length_bits size) × (result ≤ 19) × (7 + result ≤ 8 * size) }
{
    let most = 8 * size - 7;
    most.next_power_of_two().ilog2() as usize
}
