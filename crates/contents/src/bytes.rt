// Document 01, "A recording": numbers of the file, "big-endian".
ghost use Rattle.std.specs.Prelude.{◌≡◌, ◌+◌, ◌≤◌, ◌<◌, length, get_or};
ghost use Rattle.contents.specs.Bytes.{big_endian};

// The byte at an offset.
pub fn byte_at(file: &[u8], at: usize) -> u32
    requires { at < length file.now }
    ensures { (result ≡ get_or file.now at 0) × (result < 256) }
{
    u32::from(file[at])
}

// The number of two bytes, from an offset on.
#[tactic(auto, unfolding(crate::specs::Bytes::big_endian))]
pub fn two_bytes_at(file: &[u8], at: usize) -> u32
    requires { at + 2 ≤ length file.now }
    ensures { (result ≡ big_endian file.now at 2) × (result < 65536) }
{
    u32::from(u16::from_be_bytes([file[at], file[at + 1]]))
}

// The number of four bytes, from an offset on.
#[tactic(auto, unfolding(crate::specs::Bytes::big_endian))]
pub fn four_bytes_at(file: &[u8], at: usize) -> usize
    requires { at + 4 ≤ length file.now }
    ensures { (result ≡ big_endian file.now at 4) × (result < 4294967296) }
{
    u32::from_be_bytes([file[at], file[at + 1], file[at + 2], file[at + 3]]) as usize
}
