// Document 01, "Refusal numbers": why a job refuses. 12, 13 and 14 are document 02's. 11 and 12 are given by the program alone, and 11 is only ever
// text. 15 to 19 are kept for the change requests.
ghost use Rattle.std.specs.Prelude.{◌≡◌};
ghost use Rattle.base.specs.Refusals.{number_of};

use std::num::TryFromIntError;

// A refusal, by what is wrong.
#[derive(Clone, Copy, Debug, PartialEq, Eq)]
pub enum Refusal {
    Size = 1,
    Depth = 2,
    Wavelet = 3,
    Codeblocks = 4,
    Planes = 5,
    BytesEndEarly = 6,
    CodeTooLong = 7,
    Quantiser = 8,
    ValueOutOfRange = 9,
    SynthesisOutOfRange = 10,
    BytesLeftOver = 12,
    Slices = 13,
    LumaLength = 14,
}

impl Refusal {
    // Its number.
    pub fn number(self) -> u32
        ensures { result ≡ number_of self }
    {
        self as u32
    }
}

// A refusal while reading, and the bit at which it arose.
#[derive(Clone, Copy, Debug, PartialEq, Eq)]
pub struct Fault {
    pub refusal: Refusal,
    pub bit: usize,
}

// A number came out outside signed 32 bits.
#[derive(Clone, Copy, Debug, PartialEq, Eq)]
pub struct OutOfRange;

impl From<TryFromIntError> for OutOfRange {
    fn from(_wide: TryFromIntError) -> OutOfRange {
        OutOfRange
    }
}
