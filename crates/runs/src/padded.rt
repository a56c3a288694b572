// The next bits of data as one number, with ones for those past the end.
ghost use Rattle.std.specs.Prelude.{◌≡◌, ◌+◌, ◌-◌, ◌*◌, ◌/◌, ◌^◌, ◌≤◌, ◌<◌, length};
ghost use Rattle.runs.specs.Padded.{bits_padded, Shows};

use lookups::window;

// The 56 bits from bit `at` on are at the top, with ones for those past the end.
pub fn padded_window(bytes: &[u8], end: usize, at: usize) -> u64
    requires { (at < end) × (end ≤ 8 * length bytes.now) }
    ensures { result / 256 ≡ bits_padded bytes.now end at 56 }
{
    let w = next_bits(bytes, at);
    let left = end - at;
    if 56 <= left {
        return w;
    }
    with_ones(w, left)
}

// The bits from bit `at` on are at the top, as far as the bytes go: from eight bytes on, or from the last eight.
fn next_bits(bytes: &[u8], at: usize) -> u64
    requires { at < 8 * length bytes.now }
    ensures { Shows bytes.now at result }
{
    let len = bytes.len();
    if at / 8 + 7 < len {
        return window(bytes, at);
    }
    if len < 8 {
        return few_bytes(bytes, at);
    }
    let start = 8 * (len - 8);
    window(bytes, start) << (at - start)
}

// The same of fewer than eight bytes.
fn few_bytes(bytes: &[u8], at: usize) -> u64
    requires { (at < 8 * length bytes.now) × (length bytes.now < 8) }
    ensures { Shows bytes.now at result }
{
    let i = at / 8;
    let mut w: u64 = 0;
    for byte in &bytes[i..] {
        w = w * 256 + u64::from(*byte);
    }
    w << (64 - 8 * (bytes.len() - i) + at % 8)
}

// The first n bits of a window, and ones after them.
fn with_ones(w: u64, n: usize) -> u64
    requires { (1 ≤ n) × (n < 64) }
    ensures { result ≡ w / 2 ^ (64 - n) * 2 ^ (64 - n) + (2 ^ (64 - n) - 1) }
{
    let past = 64 - n;
    ((w >> past) << past) + ((1u64 << past) - 1)
}
