// Document 01, "One subband": columns or rows divided into parts.
ghost use Rattle.std.specs.Prelude.{◌≡◌, ℕ, ◌≤◌};
ghost use Rattle.component.specs.Partition.{part_start};
ghost use Rattle.component.specs.Reciprocal.{reciprocal_of};

// Where part x starts, of a size divided into so many parts.
#[tactic(auto, unfolding(crate::specs::Partition::part_start))]
pub fn part_start(size: usize, count: usize, x: usize) -> usize
    requires { (size ≤ 4096) × (1 ≤ count) × (x ≤ 256) }
    ensures { result ≡ part_start size count x }
{
    size * x / count
}

// What multiplies in place of a division by a count of parts.
#[tactic(auto, unfolding(crate::specs::Reciprocal::reciprocal_of))]
pub fn reciprocal_of(count: usize) -> usize
    requires { 1 ≤ count }
    ensures { result ≡ reciprocal_of count }
{
    4294967296 / count + 1
}

// Where part x starts, of a size divided into a count of parts that a reciprocal stands for: no division.
pub fn part_start_by(size: usize, reciprocal: usize, x: usize) -> usize
    requires { (size ≤ 4096) × (reciprocal ≤ 4294967297) × (x ≤ 256) }
    ensures { (count : ℕ) → 1 ≤ count → count ≤ 255 → reciprocal ≡ reciprocal_of count → result ≡ part_start size count x }
{
    size * x * reciprocal / 4294967296
}
