// Sums of taps over a line, exact in 64 bits, and lifting a line by them.
ghost use Rattle.std.specs.Prelude.{◌≡◌, ℕ, ◌+◌, ◌≤◌, ◌<◌, ◌^◌, ◌+ℤ◌, ◌*ℤ◌, nat_abs, length, is_ok, OnOk};
ghost use Rattle.base.specs.Fill.{fill};
ghost use Rattle.lines.specs.Sums.{number_at, sum_at, changed, line_lifted, line_fits, TapsFit};
ghost use Rattle.lines.specs.Buffers.{Below};

use base::signed;
use base::status::OutOfRange;

// Sums the taps of a line, each from its own start in the source on.
pub fn sum_taps(
    sums: &mut [i64; 256],
    source: &[i32],
    width: usize,
    taps: &[i64; 8],
    starts: &[usize; 8],
    count: usize,
    round: i64,
)
    requires width_bound { (width ≤ 256) × (count ≤ 8) × (nat_abs round ≤ 2 ^ 44) }
    requires taps_fit { TapsFit taps.now starts.now count source.now width }
    ensures summed { (x : ℕ) → x < width → number_at sums.new x
        ≡ sum_at round taps.now starts.now count source.now x }
    ensures small { Below sums.new width (2 ^ 48) }
{
    sums[..width].fill(round);
    for t in 0..count {
        add_tap(sums, source, starts[t], width, taps[t]);
    }
}

// Adds a tap to the sums of a line: its factor times the numbers from an index of the source on.
fn add_tap(sums: &mut [i64; 256], source: &[i32], start: usize, width: usize, tap: i64)
    requires width_bound { (width ≤ 256) × (start + width ≤ length source.now) }
    requires tap_bound { (nat_abs tap ≤ 2 ^ 13) × Below sums.old width (2 ^ 60) }
    ensures summed { sums.new ≡ fill sums.old 0 width
        (λ x. number_at sums.old x +ℤ tap *ℤ number_at source.now (start + x)) }
    ensures small { (m : ℕ) → Below sums.old width m → Below sums.new width (m + 2 ^ 44) }
{
    for x in 0..width {
        sums[x] += tap * i64::from(source[start + x]);
    }
}

// Lifts a line by its sums: adds or subtracts each, divided by 2^scale. Refuses where a new number is outside 32 bits; then the
// line's numbers are of no use.
pub fn lift_line(
    line: &mut [i32],
    start: usize,
    sums: &[i64; 256],
    width: usize,
    scale: u32,
    adds: bool,
) -> Result<(), OutOfRange>
    requires width_bound { (width ≤ 256) × (start + width ≤ length line.old) × (scale < 64) }
    requires below { Below sums.now width (2 ^ 48) }
    ensures told { is_ok result ≡ line_fits adds scale line.old start width (number_at sums.now) }
    ensures done { OnOk result (line.new ≡ line_lifted adds scale line.old start width (number_at sums.now)) }
{
    for x in 0..width {
        let new = lifted(line[start + x], sums[x], scale, adds);
        line[start + x] = signed::try_narrow(new)?;
    }
    Ok(())
}

// A number with a sum, divided by 2^scale, added or subtracted.
#[tactic(auto, unfolding(crate::specs::Sums::changed))]
fn lifted(v: i32, sum: i64, scale: u32, adds: bool) -> i64
    requires { (scale < 64) × (nat_abs sum ≤ 2 ^ 48) }
    ensures { result ≡ changed adds scale v sum }
{
    let update = sum >> scale;
    if adds {
        i64::from(v) + update
    } else {
        i64::from(v) - update
    }
}
