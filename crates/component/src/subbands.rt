// Document 01, "Sizes and the coefficient plane": the subbands in stream order.
ghost use Rattle.std.specs.Prelude.{◌≡◌, ◌≤◌, ◌<◌};
ghost use Rattle.component.specs.Subbands.{subband_count, subband_at};

use crate::sizes::band_size;

// A subband's level, and the rectangle of the coefficient plane that it takes.
#[derive(Clone, Copy)]
pub struct Subband {
    pub level: usize,
    pub left: usize,
    pub top: usize,
    pub width: usize,
    pub height: usize,
}

// How many subbands a component has.
pub fn subband_count(depth: usize) -> usize
    requires { depth ≤ 4 }
    ensures { result ≡ subband_count depth }
{
    1 + 3 * depth
}

// Subband k in stream order.
#[tactic(auto, unfolding(crate::specs::Subbands::subband_at, crate::specs::Subbands::subband_level, crate::specs::Subbands::orientation_of, crate::specs::Subbands::detail_of, crate::specs::Subbands::left_of, crate::specs::Subbands::top_of))]
pub fn subband_at(depth: usize, padded_width: usize, padded_height: usize, k: usize) -> Subband
    requires { (depth ≤ 4) × (k < subband_count depth) }
    ensures { result ≡ subband_at depth padded_width padded_height k }
{
    let level = (k + 2) / 3;
    let width = band_size(depth, padded_width, level);
    let height = band_size(depth, padded_height, level);
    // LL, HL, LH, HH
    let (left, top) = match (k, k % 3) {
        (0, _) => (0, 0),
        (_, 1) => (width, 0),
        (_, 2) => (0, height),
        _ => (width, height),
    };
    Subband {
        level,
        left,
        top,
        width,
        height,
    }
}
