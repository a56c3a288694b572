// Document 01, "Number codes": taking a bit.
ghost use Rattle.std.specs.Prelude.{◌≡◌};
ghost use Rattle.exp_golomb.specs.Bits.{bit_of, present, take_bit};

// A bit that was taken, and the next one's position.
#[derive(Clone, Copy, Debug, PartialEq, Eq)]
pub struct TakenBit {
    pub bit: u64,
    pub next: usize,
}

// Bit `at` of data that end at bit `end` or where the bytes do, or nothing. Past data of a stated length it is 1.
pub fn take_bit(bytes: &[u8], end: usize, stated: bool, at: usize) -> Option<TakenBit>
    ensures { bit_of result ≡ take_bit bytes.now end stated at }
{
    if is_present(bytes, end, at) {
        let byte = u64::from(bytes[at / 8]);
        let shift = 7 - at % 8;
        let bit = (byte >> shift) % 2;
        let next = at + 1;
        return Some(TakenBit { bit, next });
    }
    if stated {
        Some(TakenBit { bit: 1, next: at })
    } else {
        None
    }
}

// Whether a bit of the data is there.
fn is_present(bytes: &[u8], end: usize, at: usize) -> bool
    ensures { result ≡ present bytes.now end at }
{
    at < end && at / 8 < bytes.len()
}
