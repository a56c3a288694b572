// Document 01, "Lifting": the table of seven filters.
ghost use Rattle.std.specs.Prelude.{◌≡◌, ℕ, ◌+◌, ◌^◌, ◌≤◌, ◌<◌, pos, nat_abs, length, get_or, take};
ghost use Rattle.std.specs.Int.Signed.{mag};
ghost use Rattle.filters.specs.Lifting.{changes_even, adds};
ghost use Rattle.filters.specs.Filters.{filter_of};
ghost use Rattle.filters.specs.Table.{listed_type, StepsListed, FiltersListed, lead_of, sizes_of, record_of, StepsFrom, WellFormedStep, WellFormed, filter_from};

use crate::filter::{LiftingFilter, LiftingStep};

// The four types of step.
#[derive(Clone, Copy)]
pub enum Kind {
    One,
    Two,
    Three,
    Four,
}

impl Kind {
    // "Types 1 and 2 change each A[2n]"
    #[tactic(auto, unfolding(crate::specs::Table::listed_type, crate::specs::Lifting::changes_even))]
    fn changes_even(self) -> bool
        ensures { result ≡ changes_even (listed_type self) }
    {
        matches!(self, Kind::One | Kind::Two)
    }

    // "Types 1 and 3 add it, 2 and 4 subtract it."
    #[tactic(auto, unfolding(crate::specs::Table::listed_type, crate::specs::Lifting::adds))]
    fn adds_sum(self) -> bool
        ensures { result ≡ adds (listed_type self) }
    {
        matches!(self, Kind::One | Kind::Three)
    }
}

// A step as document 01 lists it: type, D, taps, S; the taps with zeros behind them, and then how many they are. Fields without names, and taps of
// one length, let the table below list a step in one line, as document 01 does; a constant may not call a function that names them.
#[derive(Clone, Copy)]
pub struct TableStep(pub Kind, pub i64, pub [i64; 8], pub usize, pub u32);

// A filter of the table: where its steps start, how many it has, and whether its shift is 1.
#[derive(Clone, Copy)]
pub struct TableFilter(pub usize, pub usize, pub bool);

// The steps of the filters, in document 01's order. Filter 4 has those of filter 3.
const STEPS: [TableStep; 14] = [
    // 0: Deslauriers-Dubuc (9,7)
    TableStep(Kind::Two, 0, [1, 1, 0, 0, 0, 0, 0, 0], 2, 2),
    TableStep(Kind::Three, -1, [-1, 9, 9, -1, 0, 0, 0, 0], 4, 4),
    // 1: LeGall (5,3)
    TableStep(Kind::Two, 0, [1, 1, 0, 0, 0, 0, 0, 0], 2, 2),
    TableStep(Kind::Three, 0, [1, 1, 0, 0, 0, 0, 0, 0], 2, 1),
    // 2: Deslauriers-Dubuc (13,7)
    TableStep(Kind::Two, -1, [-1, 9, 9, -1, 0, 0, 0, 0], 4, 5),
    TableStep(Kind::Three, -1, [-1, 9, 9, -1, 0, 0, 0, 0], 4, 4),
    // 3 and 4: Haar, without and with a shift
    TableStep(Kind::Two, 1, [1, 0, 0, 0, 0, 0, 0, 0], 1, 1),
    TableStep(Kind::Three, 0, [1, 0, 0, 0, 0, 0, 0, 0], 1, 0),
    // 5: Fidelity
    TableStep(Kind::Three, -3, [-2, 10, -25, 81, 81, -25, 10, -2], 8, 8),
    TableStep(Kind::Two, -3, [-8, 21, -46, 161, 161, -46, 21, -8], 8, 8),
    // 6: Daubechies (9,7)
    TableStep(Kind::Two, 0, [1817, 1817, 0, 0, 0, 0, 0, 0], 2, 12),
    TableStep(Kind::Four, 0, [3616, 3616, 0, 0, 0, 0, 0, 0], 2, 12),
    TableStep(Kind::One, 0, [217, 217, 0, 0, 0, 0, 0, 0], 2, 12),
    TableStep(Kind::Three, 0, [6497, 6497, 0, 0, 0, 0, 0, 0], 2, 12),
];

// Filters 0 to 6.
const FILTERS: [TableFilter; 7] = [
    TableFilter(0, 2, true),
    TableFilter(2, 2, true),
    TableFilter(4, 2, true),
    TableFilter(6, 2, false),
    TableFilter(6, 2, true),
    TableFilter(8, 2, false),
    TableFilter(10, 4, true),
];

// The filter of a wavelet index.
pub fn filter_of(wavelet: usize) -> LiftingFilter
    requires { wavelet ≤ 6 }
    ensures { (filter_from result ≡ filter_of wavelet) × WellFormed result }
{
    let table = table_filters();
    let TableFilter(start, count, shift) = table[wavelet];
    let steps = steps_from(start, count);
    LiftingFilter {
        steps,
        count,
        shift,
    }
}

// So many steps of the table from one on; the entries that are left repeat the first.
fn steps_from(start: usize, count: usize) -> [LiftingStep; 4]
    requires { (1 ≤ count) × (count ≤ 4) × (start + count ≤ 14) }
    ensures { StepsFrom start count result × (length result ≡ 4) }
{
    let table = table_steps();
    let first = record_of(table[start]);
    let mut steps = [first; 4];
    for k in 1..count {
        let step = record_of(table[start + k]);
        steps[k] = step;
    }
    steps
}

// The steps that the table lists.
fn table_steps() -> [TableStep; 14]
    ensures { StepsListed result }
{
    STEPS
}

// The filters that it lists.
fn table_filters() -> [TableFilter; 7]
    ensures { FiltersListed result }
{
    FILTERS
}

// The record of a step that the table lists.
fn record_of(row: TableStep) -> LiftingStep
    requires { (mag row.1 ≤ 2) × WellFormedStep (record_of row) }
    ensures { result ≡ record_of row }
{
    let TableStep(kind, first, taps, count, scale) = row;
    let even = kind.changes_even();
    let gain = gain_of(&taps, count);
    LiftingStep {
        even,
        adds: kind.adds_sum(),
        lead: lead_of(even, first),
        taps,
        count,
        scale,
        gain,
    }
}

// The first offset, counted from −3 where even elements change and from −4 where odd ones do.
fn lead_of(even: bool, first: i64) -> usize
    requires { mag first ≤ 2 }
    ensures { result ≡ lead_of even first }
{
    let offset = if even { 3 } else { 4 };
    (first + offset).unsigned_abs() as usize
}

// The sum of the taps' sizes.
fn gain_of(taps: &[i64; 8], count: usize) -> u64
    requires { (count ≤ 8) × ((t : ℕ) → t < 8 → nat_abs (get_or taps.now t (pos 0)) ≤ 2 ^ 13) }
    ensures { result ≡ sizes_of (take count taps.now) }
{
    let mut gain = 0u64;
    for t in 0..count {
        gain += taps[t].unsigned_abs();
    }
    gain
}
