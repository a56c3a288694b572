// Lines of a plane lifted in place, where sums and new numbers stay within 32 bits, so that nothing is tested on the way. What comes out is what
// the exact sums give.
#![tactic(auto)]

pub mod known_taps;
pub mod loops;
pub mod pairs;

ghost use Rattle.std.specs.Prelude.{◌≡◌};
ghost use Rattle.lifting32.specs.Liftable.{Liftable, lifted_by_taps};

use crate::known_taps::{lift_more_pairs, lift_one_pair, lift_single, lift_two_pairs};
use crate::pairs::{pair_tap, paired_line};

// A line that is lifted: where it starts in its plane, how many numbers it has, what their sums start with, and the scale.
#[derive(Clone, Copy)]
pub struct LineStep {
    pub start: usize,
    pub width: usize,
    pub round: i32,
    pub scale: u32,
}

// A line that is lifted by pairs of taps, and where the taps of its four pairs read from: the earlier ones, then the later ones.
#[derive(Clone, Copy)]
pub struct PairedLine {
    pub line: LineStep,
    pub indices: [usize; 8],
}

// Lifts a line by sums of taps, each of which reads from its own start in the plane: adds or subtracts each sum, divided by 2^scale. Where `narrow`
// is true, the numbers that are read are below 2^14 in size. In each arm the compiler knows how many pairs of taps there are, and finds only the
// indices that they read from.
pub fn lift_small(
    plane: &mut [i32],
    line: LineStep,
    taps: &[i64; 8],
    starts: &[usize; 8],
    count: usize,
    adds: bool,
    narrow: bool,
)
    requires { Liftable plane.old line taps.now starts.now count adds narrow }
    ensures { plane.new ≡ lifted_by_taps plane.old line taps.now starts.now count adds }
{
    match count {
        1 => lift_single(plane, line, taps, starts, adds),
        2 => {
            let paired = paired_line(line, starts, 1);
            lift_one_pair(plane, paired, pair_tap(taps, 1, 0), adds, narrow);
        }
        4 => {
            let paired = paired_line(line, starts, 2);
            let inner = pair_tap(taps, 2, 0);
            lift_two_pairs(plane, paired, inner, pair_tap(taps, 2, 1), adds);
        }
        _ => {
            let half = count / 2;
            let paired = paired_line(line, starts, half);
            lift_more_pairs(plane, paired, taps, half, adds, narrow);
        }
    }
}
