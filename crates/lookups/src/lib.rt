// The next bits of data as one number, and what a table tells of eight of them.
#![tactic(auto)]

ghost use Rattle.std.specs.Prelude.{◌≡◌, ◌≢◌, ◌+◌, ◌-◌, ◌/◌, ◌^◌, ◌≤◌, ◌<◌, eqb, length};
ghost use Rattle.lookups.specs.Windows.{is_window, window_of};
ghost use Rattle.lookups.specs.Lookups.{KnowsCodes, Describes};

// What eight bits tell: so many zeros, with or without one more value, and the bits of all of them. The value is twice its size, and one more
// where it is below 0. Where no code ends in the eight there are no bits: that is their count, and an Option beside it would say no more.
#[derive(Clone, Copy)]
pub struct Lookup {
    pub zeros: usize,
    pub count: usize,
    pub value: usize,
    pub bits: usize,
}

impl Lookup {
    // The value of the first code, and its bits: a zero has one.
    pub fn first_value(self) -> usize
        ensures { (self.zeros ≢ 0 → result ≡ 0) × (self.zeros ≡ 0 → result ≡ self.value) }
    {
        if 0 < self.zeros {
            return 0;
        }
        self.value
    }

    pub fn first_bits(self) -> usize
        ensures { (self.zeros ≢ 0 → result ≡ 1) × (self.zeros ≡ 0 → result ≡ self.bits) }
    {
        if 0 < self.zeros {
            return 1;
        }
        self.bits
    }
}

// Whether the next 56 bits are there, in eight bytes.
pub fn is_window(bytes: &[u8], end: usize, at: usize) -> bool
    ensures { result ≡ is_window bytes.now end at }
{
    56 <= end && at <= end - 56 && at / 8 + 7 < bytes.len()
}

// The 64 bits of eight bytes, with those before bit `at` shifted out: the next 56 bits are at the top. The bytes named one by one are loaded at
// once; first_chunk tests their number a second time when it runs.
pub fn window(bytes: &[u8], at: usize) -> u64
    requires { at / 8 + 7 < length bytes.now }
    ensures { result ≡ window_of bytes.now at }
{
    let i = at / 8;
    let eight = [
        bytes[i],
        bytes[i + 1],
        bytes[i + 2],
        bytes[i + 3],
        bytes[i + 4],
        bytes[i + 5],
        bytes[i + 6],
        bytes[i + 7],
    ];
    u64::from_be_bytes(eight) << (at % 8)
}

// Whether a window starts with n ones, each the code of a 0.
pub fn starts_with_ones(w: u64, n: usize) -> bool
    requires { (1 ≤ n) × (n ≤ 32) }
    ensures { result ≡ eqb (w / 2 ^ (64 - n) + 1) (2 ^ n) }
{
    (w >> (64 - n)) + 1 == 1u64 << n
}

// A table that is right of any eight bits.
#[derive(Clone, Copy)]
pub struct CodeTable {
    pub entries: [u16; 256],
    pub ghost knows: { KnowsCodes entries },
}

impl CodeTable {
    // The table of all codes that end in eight bits.
    pub fn new() -> CodeTable
        ensures { KnowsCodes result.entries }
    {
        CodeTable { entries: ENTRIES }
    }

    // What it tells of the eight bits that start a window.
    pub fn look_up(&self, w: u64) -> Lookup
        ensures { Describes (w / 2 ^ 56) result }
    {
        let c = (w >> 56) as usize;
        let entry = usize::from(self.entries[c]);
        Lookup {
            zeros: entry / 16 % 16,
            count: entry / 16 % 16 + entry / 256 % 2,
            value: entry / 512,
            bits: entry % 16,
        }
    }
}

// The value, whether there is one, the zeros and the bits, each in a part of an entry: 512 · value + 256 · one + 16 · zeros + bits.
const ENTRIES: [u16; 256] = [
    0, 0, 7432, 7944, 0, 0, 8456, 8968, 3334, 3334, 3334, 3334, 3846, 3846, 3846, 3846, 0, 0, 9480,
    9992, 0, 0, 10504, 11016, 4358, 4358, 4358, 4358, 4870, 4870, 4870, 4870, 1284, 1284, 1284,
    1284, 1284, 1284, 1284, 1284, 1284, 1284, 1284, 1284, 1284, 1284, 1284, 1284, 1796, 1796, 1796,
    1796, 1796, 1796, 1796, 1796, 1796, 1796, 1796, 1796, 1796, 1796, 1796, 1796, 0, 0, 11528,
    12040, 0, 0, 12552, 13064, 5382, 5382, 5382, 5382, 5894, 5894, 5894, 5894, 0, 0, 13576, 14088,
    0, 0, 14600, 15112, 6406, 6406, 6406, 6406, 6918, 6918, 6918, 6918, 2308, 2308, 2308, 2308,
    2308, 2308, 2308, 2308, 2308, 2308, 2308, 2308, 2308, 2308, 2308, 2308, 2820, 2820, 2820, 2820,
    2820, 2820, 2820, 2820, 2820, 2820, 2820, 2820, 2820, 2820, 2820, 2820, 17, 17, 17, 17, 3351,
    3351, 3863, 3863, 17, 17, 17, 17, 4375, 4375, 4887, 4887, 1301, 1301, 1301, 1301, 1301, 1301,
    1301, 1301, 1813, 1813, 1813, 1813, 1813, 1813, 1813, 1813, 17, 17, 17, 17, 5399, 5399, 5911,
    5911, 17, 17, 17, 17, 6423, 6423, 6935, 6935, 2325, 2325, 2325, 2325, 2325, 2325, 2325, 2325,
    2837, 2837, 2837, 2837, 2837, 2837, 2837, 2837, 34, 34, 3368, 3880, 34, 34, 4392, 4904, 1318,
    1318, 1318, 1318, 1830, 1830, 1830, 1830, 34, 34, 5416, 5928, 34, 34, 6440, 6952, 2342, 2342,
    2342, 2342, 2854, 2854, 2854, 2854, 51, 51, 51, 51, 1335, 1335, 1847, 1847, 51, 51, 51, 51,
    2359, 2359, 2871, 2871, 68, 68, 1352, 1864, 68, 68, 2376, 2888, 85, 85, 85, 85, 102, 102, 119,
    136,
];
