// A lifting step and a filter, as the passes run them.
ghost use Rattle.std.specs.Prelude.{◌≡◌, ◌≤◌};
ghost use Rattle.filters.specs.Lifting.{rounding};

// A lifting step: whether it changes the even elements, whether it adds, its first offset, its taps and its scale; and its gain, which is
// the sum of its taps' sizes. The first offset D is counted from −3 where even elements change and from −4 where odd ones do, so that it is never
// below 0. The taps are an array with its count beside it, and so are a filter's steps: no heap, and a step is handed on by value. That a step is
// well-formed stays a clause: entries of a filter past its count may be anything, and `gap_of`, `lift_turn`, `finish_row` and `synthesise_levels`
// take such filters.
#[derive(Clone, Copy)]
pub struct LiftingStep {
    pub even: bool,
    pub adds: bool,
    pub lead: usize,
    pub taps: [i64; 8],
    pub count: usize,
    pub scale: u32,
    pub gain: u64,
}

// A filter: its steps, of which the first `count` are in use, and whether its shift is 1.
#[derive(Clone, Copy)]
pub struct LiftingFilter {
    pub steps: [LiftingStep; 4],
    pub count: usize,
    pub shift: bool,
}

// What a sum is rounded with before it is divided by 2^scale: half of that, or 0.
pub fn rounding_of(scale: u32) -> i64
    requires { scale ≤ 12 }
    ensures { result ≡ rounding scale }
{
    if scale == 0 {
        return 0;
    }
    (1u64 << (scale - 1)) as i64
}
