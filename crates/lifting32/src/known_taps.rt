// The taps of the seven filters, told apart for the compiler. Each branch is the same call, so nothing that is computed depends on the tests; but in
// a branch the compiler knows what was tested for, and the loop that it copies there multiplies by shifts, or by one instruction, and reads nothing
// for a tap of 0. A call behind several branches counts as rare, and its loop is not copied: so the parts of a test are joined by `&`, not by `&&`,
// and the long taps are told apart by a `match`.
ghost use Rattle.std.specs.Prelude.{◌≡◌, false, pos};
ghost use Rattle.lifting32.specs.Liftable.{Liftable, lifted_by_taps};
ghost use Rattle.lifting32.specs.Liftable.{LiftableByPairs, lifted_by_pairs, LiftableByPairsOf, lifted_by_pairs_of};
ghost use Rattle.lifting32.specs.Pairs.{PairTapsFit};

use crate::loops::{lift_one, lift_pairs};
use crate::pairs::pair_tap;
use crate::{LineStep, PairedLine};

// Lifts a line by one tap: Haar's is 1.
pub fn lift_single(
    plane: &mut [i32],
    line: LineStep,
    taps: &[i64; 8],
    starts: &[usize; 8],
    adds: bool,
)
    requires { Liftable plane.old line taps.now starts.now 1 adds false }
    ensures { plane.new ≡ lifted_by_taps plane.old line taps.now starts.now 1 adds }
{
    let source = starts[0];
    let tap = taps[0] as i32;
    if tap == 1 {
        if adds {
            lift_one(plane, line, source, tap, adds);
            return;
        }
        lift_one(plane, line, source, tap, adds);
        return;
    }
    lift_one(plane, line, source, tap, adds);
}

// Lifts a line by one pair of taps: of LeGall (5,3) and Deslauriers-Dubuc (9,7), which are 1, or of Daubechies (9,7), which are long.
#[tactic(auto, using(crate::proofs::LiftableLaws::widened))]
pub fn lift_one_pair(plane: &mut [i32], paired: PairedLine, tap: i32, adds: bool, narrow: bool)
    requires { LiftableByPairs plane.old paired tap (pos 0) (pos 0) (pos 0) adds narrow }
    ensures { plane.new ≡ lifted_by_pairs plane.old paired tap (pos 0) (pos 0) (pos 0) adds }
{
    if tap == 1 {
        if adds {
            lift_pairs(plane, paired, tap, 0, 0, 0, adds, false);
            return;
        }
        lift_pairs(plane, paired, tap, 0, 0, 0, adds, false);
        return;
    }
    if narrow & adds {
        match tap {
            217 => lift_pairs(plane, paired, tap, 0, 0, 0, adds, narrow),
            6497 => lift_pairs(plane, paired, tap, 0, 0, 0, adds, narrow),
            _ => lift_pairs(plane, paired, tap, 0, 0, 0, adds, narrow),
        }
        return;
    }
    if narrow & !adds {
        match tap {
            1817 => lift_pairs(plane, paired, tap, 0, 0, 0, adds, narrow),
            3616 => lift_pairs(plane, paired, tap, 0, 0, 0, adds, narrow),
            _ => lift_pairs(plane, paired, tap, 0, 0, 0, adds, narrow),
        }
        return;
    }
    if adds {
        lift_pairs(plane, paired, tap, 0, 0, 0, adds, false);
        return;
    }
    lift_pairs(plane, paired, tap, 0, 0, 0, adds, false);
}

// Lifts a line by two pairs of taps: of Deslauriers-Dubuc (9,7) and (13,7).
pub fn lift_two_pairs(plane: &mut [i32], paired: PairedLine, inner: i32, outer: i32, adds: bool)
    requires { LiftableByPairs plane.old paired inner outer (pos 0) (pos 0) adds false }
    ensures { plane.new ≡ lifted_by_pairs plane.old paired inner outer (pos 0) (pos 0) adds }
{
    if (inner == 9) & (outer == -1) {
        if adds {
            lift_pairs(plane, paired, inner, outer, 0, 0, adds, false);
            return;
        }
        lift_pairs(plane, paired, inner, outer, 0, 0, adds, false);
        return;
    }
    lift_pairs(plane, paired, inner, outer, 0, 0, adds, false);
}

// Lifts a line by the pairs of its taps, four at most: Fidelity has four.
pub fn lift_more_pairs(
    plane: &mut [i32],
    paired: PairedLine,
    taps: &[i64; 8],
    half: usize,
    adds: bool,
    narrow: bool,
)
    requires { PairTapsFit taps.now half × LiftableByPairsOf plane.old paired taps.now half adds narrow }
    ensures { plane.new ≡ lifted_by_pairs_of plane.old paired taps.now half adds }
{
    let t0 = pair_tap(taps, half, 0);
    let t1 = pair_tap(taps, half, 1);
    let t2 = pair_tap(taps, half, 2);
    let t3 = pair_tap(taps, half, 3);
    if (t0 == 81) & (t1 == -25) & (t2 == 10) & (t3 == -2) & adds {
        if narrow {
            lift_pairs(plane, paired, t0, t1, t2, t3, adds, narrow);
            return;
        }
        lift_pairs(plane, paired, t0, t1, t2, t3, adds, narrow);
        return;
    }
    if (t0 == 161) & (t1 == -46) & (t2 == 21) & (t3 == -8) & !adds {
        if narrow {
            lift_pairs(plane, paired, t0, t1, t2, t3, adds, narrow);
            return;
        }
        lift_pairs(plane, paired, t0, t1, t2, t3, adds, narrow);
        return;
    }
    lift_pairs(plane, paired, t0, t1, t2, t3, adds, narrow);
}
