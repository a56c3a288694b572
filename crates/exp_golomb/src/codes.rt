// Document 01, "Number codes": unsigned and signed numbers.
ghost use Rattle.std.specs.Prelude.{◌≡◌};
ghost use Rattle.exp_golomb.specs.Bits.{take_bit};
ghost use Rattle.exp_golomb.specs.Codes.{needed, result_of, unsigned, signed};

use crate::bits::{TakenBit, take_bit};
use base::limits::DATA_BITS_MOST;
use base::status::{Fault, Refusal};

// A number that was read: its size, whether it is below 0, and the bit after those taken, which are never past the end.
#[derive(Clone, Copy, Debug, PartialEq, Eq)]
pub struct ReadNumber {
    pub size: u32,
    pub minus: bool,
    pub next: usize,
}

// The unsigned number whose code starts at bit `at` of data that end at bit `end`, or where the bytes do. A refusal's bit is the one after
// those taken. Bytes, end and stated stay arguments, as the definitions have them: callers keep end and stated in a cursor of their own, and would
// fill a struct for each call.
pub fn read_unsigned(bytes: &[u8], end: usize, stated: bool, at: usize) -> Result<ReadNumber, Fault>
    ensures { result ≡ result_of (unsigned bytes.now end stated at) }
{
    let mut v: u64 = 1;
    let mut i = at;
    for _ in 0..DATA_BITS_MOST {
        let last = needed_bit(bytes, end, stated, i)?;
        if last.bit == 1 {
            return Ok(ReadNumber {
                size: (v - 1) as u32,
                minus: false,
                next: last.next,
            });
        }
        let data = needed_bit(bytes, end, stated, last.next)?;
        v = 2 * v + data.bit;
        i = data.next;
    }
    let last = needed_bit(bytes, end, stated, i)?;
    if last.bit == 1 {
        return Ok(ReadNumber {
            size: (v - 1) as u32,
            minus: false,
            next: last.next,
        });
    }
    Err(Fault {
        refusal: Refusal::CodeTooLong,
        bit: last.next,
    })
}

// The signed number whose code starts at bit `at` of data that end at bit `end`, or where the bytes do.
pub fn read_signed(bytes: &[u8], end: usize, stated: bool, at: usize) -> Result<ReadNumber, Fault>
    ensures { result ≡ result_of (signed bytes.now end stated at) }
{
    let number = read_unsigned(bytes, end, stated, at)?;
    if number.size == 0 {
        return Ok(ReadNumber {
            minus: false,
            ..number
        });
    }
    let sign = needed_bit(bytes, end, stated, number.next)?;
    Ok(ReadNumber {
        minus: sign.bit == 1,
        next: sign.next,
        ..number
    })
}

// Bit `at`, or the refusal where it is missing.
#[inline]
fn needed_bit(bytes: &[u8], end: usize, stated: bool, at: usize) -> Result<TakenBit, Fault>
    ensures { result ≡ needed (take_bit bytes.now end stated at) at }
{
    take_bit(bytes, end, stated, at).ok_or(Fault {
        refusal: Refusal::BytesEndEarly,
        bit: at,
    })
}
