// Taps that are the same from both ends, as pairs of equal taps, counted from the middle pair outward. There are four at most; a pair that there is
// not has the tap 0 and reads what the middle pair reads.
ghost use Rattle.std.specs.Prelude.{◌≡◌, ◌≤◌, ◌<◌};
ghost use Rattle.lifting32.specs.Pairs.{PairTapsFit, pair_tap, PairedFrom, pair_index, pair_or_middle};

use crate::{LineStep, PairedLine};

// The tap of pair j.
#[tactic(auto, unfolding(crate::specs::Pairs::pair_tap))]
pub fn pair_tap(taps: &[i64; 8], half: usize, j: usize) -> i32
    requires { PairTapsFit taps.now half }
    ensures { result ≡ pair_tap taps.now half j }
{
    if j < half {
        return taps[half - 1 - j] as i32;
    }
    0
}

// The line with where the taps of its pairs read from: the earlier ones, then the later ones.
pub fn paired_line(line: LineStep, starts: &[usize; 8], half: usize) -> PairedLine
    requires { (1 ≤ half) × (half ≤ 4) }
    ensures { PairedFrom line starts.now half result }
{
    let mut indices = [0usize; 8];
    for (j, index) in indices.iter_mut().enumerate() {
        *index = pair_index(starts, half, j);
    }
    PairedLine { line, indices }
}

// Where entry j of that list reads from.
#[tactic(auto, unfolding(crate::specs::Pairs::pair_index, crate::specs::Pairs::pair_or_middle))]
fn pair_index(starts: &[usize; 8], half: usize, j: usize) -> usize
    requires { (1 ≤ half) × (half ≤ 4) × (j < 8) }
    ensures { result ≡ pair_index starts.now half j }
{
    if j < 4 {
        return starts[half - 1 - pair_or_middle(half, j)];
    }
    starts[half + pair_or_middle(half, j - 4)]
}

// The pair, or the middle one where there is no such pair.
#[tactic(auto, unfolding(crate::specs::Pairs::pair_or_middle))]
fn pair_or_middle(half: usize, j: usize) -> usize
    ensures { result ≡ pair_or_middle half j }
{
    if j < half { j } else { 0 }
}
