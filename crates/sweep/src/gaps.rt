// How far apart the stages of a sweep are.
ghost use Rattle.std.specs.Prelude.{◌+◌, ◌≤◌};
ghost use Rattle.filters.specs.Table.{WellFormedStep, WellFormed};
ghost use Rattle.sweep.specs.Stages.{Spaced};

use filters::filter::{LiftingFilter, LiftingStep};

// How many pairs of rows a stage stays behind the one before, so that no step of the filter reads a pair that has not come to it yet or has gone on.
pub fn gap_of(filter: LiftingFilter) -> usize
    requires { WellFormed filter }
    ensures { Spaced filter result × (result ≤ 4) }
{
    let mut gap = 0;
    for step in &filter.steps[..filter.count] {
        gap = step_gap(*step).max(gap);
    }
    gap
}

// How far a step reads from the pair that it changes, back or ahead.
fn step_gap(step: LiftingStep) -> usize
    requires { WellFormedStep step }
    ensures { (result ≤ 4) × (4 ≤ step.lead + result) × (step.lead + step.count ≤ 5 + result) }
{
    let back = 4usize.saturating_sub(step.lead);
    let ahead = (step.lead + step.count).saturating_sub(5);
    back.max(ahead)
}
