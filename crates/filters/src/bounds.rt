// How large the numbers of a pass may be, step by step: where they stay within 32 bits, a step is run without tests.
ghost use Rattle.std.specs.Prelude.{◌≡◌, ◌≤◌, ◌^◌, ltb};
ghost use Rattle.filters.specs.Table.{WellFormedStep};
ghost use Rattle.filters.specs.Bounds.{BoundsFit, stays_small, target_after, source_bound, target_bound, bounds_after};

use crate::filter::LiftingStep;

// How large the numbers at the even and at the odd elements of a pass may be.
#[derive(Clone, Copy)]
pub struct Bounds {
    pub even: u64,
    pub odd: u64,
}

// Whether a step over numbers that keep to bounds stays within 32 bits, its sums and its new numbers.
pub fn stays_small(step: LiftingStep, bounds: Bounds) -> bool
    requires { WellFormedStep step × BoundsFit bounds }
    ensures { result ≡ stays_small step (source_bound step bounds) (target_bound step bounds) }
{
    if step.even {
        return target_after(step, bounds.odd, bounds.even) < 2147483648;
    }
    target_after(step, bounds.even, bounds.odd) < 2147483648
}

// Whether the numbers that a step reads are below 2^14 in size.
#[tactic(auto, unfolding(crate::specs::Bounds::bound_of))]
pub fn reads_narrow(step: LiftingStep, bounds: Bounds) -> bool
    ensures { result ≡ ltb (source_bound step bounds) (2 ^ 14) }
{
    if step.even {
        return bounds.odd < 16384;
    }
    bounds.even < 16384
}

// The bounds after a step.
pub fn bounds_after(step: LiftingStep, bounds: Bounds) -> Bounds
    requires { WellFormedStep step × BoundsFit bounds }
    ensures { result ≡ bounds_after step bounds }
{
    if step.even {
        return Bounds {
            even: target_after(step, bounds.odd, bounds.even),
            odd: bounds.odd,
        };
    }
    Bounds {
        even: bounds.even,
        odd: target_after(step, bounds.even, bounds.odd),
    }
}

// How large the numbers that a step changes may be after it, from how large those that it reads and those that it changes may be before: 2^31
// where they, or its sums, may leave 32 bits, since the new numbers are tested then.
#[tactic(auto, unfolding(crate::specs::Bounds::target_after, crate::specs::Bounds::stays_small, crate::specs::Bounds::sum_most, crate::specs::Bounds::new_most))]
fn target_after(step: LiftingStep, source: u64, target: u64) -> u64
    requires { WellFormedStep step × (source ≤ 2 ^ 32) × (target ≤ 2 ^ 32) }
    ensures { result ≡ target_after step source target }
{
    let sum = step.gain * source + 2048;
    let new = target + (sum >> step.scale) + 1;
    if sum < 2147483648 && new < 2147483648 {
        return new;
    }
    2147483648
}
