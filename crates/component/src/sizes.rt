// Document 01, "Sizes and the coefficient plane": padded sizes and the sizes of bands.
ghost use Rattle.std.specs.Prelude.{◌≡◌, ◌≤◌};
ghost use Rattle.component.specs.Sizes.{padded_size, band_size};

// The size rounded up to a multiple of 2^depth.
pub fn padded_size(depth: usize, size: usize) -> usize
    requires { (depth ≤ 4) × (size ≤ 4096) }
    ensures { result ≡ padded_size depth size }
{
    size.next_multiple_of(1 << depth)
}

// The width or height of a level's bands, from the padded one.
#[tactic(auto, unfolding(crate::specs::Sizes::band_size))]
pub fn band_size(depth: usize, padded: usize, level: usize) -> usize
    requires { (depth ≤ 4) × (level ≤ depth) }
    ensures { result ≡ band_size depth padded level }
{
    if level == 0 {
        padded >> depth
    } else {
        padded >> (depth + 1 - level)
    }
}
