// The loops over a line: by one tap, and by four pairs of taps.
ghost use Rattle.std.specs.Prelude.{◌≡◌, true, ◌<◌, ◌+ℤ◌, ◌*ℤ◌};
ghost use Rattle.base.specs.Range.{fits32};
ghost use Rattle.lines.specs.Sums.{changed};
ghost use Rattle.lifting32.specs.Liftable.{LiftableByOne, lifted_by_one, LiftableByPairs, lifted_by_pairs};
ghost use Rattle.lifting32.specs.Pairs.{FourPairsFit, pair_sum, PairFits, pair_at, OnePairFits, pair_of, ProductFits};

use crate::{LineStep, PairedLine};

// Lifts a line by one tap.
pub fn lift_one(plane: &mut [i32], line: LineStep, source: usize, tap: i32, adds: bool)
    requires { LiftableByOne plane.old line source tap adds }
    ensures { plane.new ≡ lifted_by_one plane.old line source tap adds }
{
    let start = line.start;
    let width = line.width;
    let round = line.round;
    let scale = line.scale;
    for x in 0..width {
        let sum = with_product(round, tap, plane[source + x], false);
        plane[start + x] = lifted(plane[start + x], sum, scale, adds);
    }
}

// Lifts a line by four pairs of taps. The taps are parameters of their own, and so are the flags, so that those that a caller knows are known in
// the loop too.
pub fn lift_pairs(
    plane: &mut [i32],
    paired: PairedLine,
    t0: i32,
    t1: i32,
    t2: i32,
    t3: i32,
    adds: bool,
    narrow: bool,
)
    requires { LiftableByPairs plane.old paired t0 t1 t2 t3 adds narrow }
    ensures { plane.new ≡ lifted_by_pairs plane.old paired t0 t1 t2 t3 adds }
{
    let line = paired.line;
    let start = line.start;
    let width = line.width;
    let scale = line.scale;
    for x in 0..width {
        let sum = pair_sum(plane, paired, x, t0, t1, t2, t3, narrow);
        plane[start + x] = lifted(plane[start + x], sum, scale, adds);
    }
}

// The sum of four pairs of taps at entry x of a line.
fn pair_sum(
    plane: &[i32],
    paired: PairedLine,
    x: usize,
    t0: i32,
    t1: i32,
    t2: i32,
    t3: i32,
    narrow: bool,
) -> i32
    requires { FourPairsFit plane.now paired x t0 t1 t2 t3 narrow }
    ensures { result ≡ pair_sum plane.now paired t0 t1 t2 t3 x }
{
    let line = paired.line;
    let round = line.round;
    let indices = paired.indices;
    let s0 = with_pair(round, plane, indices[0] + x, indices[4] + x, t0, narrow);
    let s1 = with_outer_pair(s0, plane, paired, x, 1, t1, narrow);
    let s2 = with_outer_pair(s1, plane, paired, x, 2, t2, narrow);
    with_outer_pair(s2, plane, paired, x, 3, t3, narrow)
}

// A sum with pair j added, at entry x of a line, where there is such a pair: a tap of 0 reads nothing.
fn with_outer_pair(
    sum: i32,
    plane: &[i32],
    paired: PairedLine,
    x: usize,
    j: usize,
    tap: i32,
    narrow: bool,
) -> i32
    requires { PairFits narrow sum tap plane.now paired x j }
    ensures { result ≡ sum +ℤ tap *ℤ pair_at plane.now paired x j }
{
    if tap == 0 {
        return sum;
    }
    let indices = paired.indices;
    with_pair(sum, plane, indices[j] + x, indices[4 + j] + x, tap, narrow)
}

// A sum with a pair of taps added, which read from two indices of the plane.
fn with_pair(sum: i32, plane: &[i32], a: usize, b: usize, tap: i32, narrow: bool) -> i32
    requires { OnePairFits narrow sum tap plane.now a b }
    ensures { result ≡ sum +ℤ tap *ℤ pair_of plane.now a b }
{
    with_product(sum, tap, plane[a] + plane[b], narrow)
}

// A sum with a tap times a number added. A number that is known to fit 16 bits is multiplied by one instruction.
fn with_product(sum: i32, tap: i32, v: i32, narrow: bool) -> i32
    requires { ProductFits narrow sum tap v }
    ensures { result ≡ sum +ℤ tap *ℤ v }
{
    if narrow {
        return sum + tap * i32::from(v as i16);
    }
    sum + tap * v
}

// A number with a sum, divided by 2^scale, added or subtracted. Unlike the function of 64 bits in `lines::sums` it asks that the new number fits, so one
// for both would be longer than the two.
#[tactic(auto, unfolding(lines::specs::Sums::changed, base::specs::Range::fits32))]
fn lifted(v: i32, sum: i32, scale: u32, adds: bool) -> i32
    requires { (scale < 32) × (fits32 (changed adds scale v sum) ≡ true) }
    ensures { result ≡ changed adds scale v sum }
{
    let update = sum >> scale;
    if adds { v + update } else { v - update }
}
