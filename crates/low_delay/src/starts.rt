// Document 02, request Four: where the bytes of slices start.
ghost use Rattle.std.specs.Prelude.{◌≡◌, ◌*◌, ◌≤◌};
ghost use Rattle.slices.specs.Areas.{slice_count};
ghost use Rattle.slices.specs.Bounds.{Checked};
ghost use Rattle.low_delay.specs.Slices.{slice_start};
ghost use Rattle.low_delay.specs.Bounds.{SoundFraction};

use crate::parameters::LowDelay;
use slices::parameters::Picture;

// How many slices a picture has.
pub fn slice_count(p: Picture) -> usize
    requires { Checked p }
    ensures { (result ≡ slice_count p) × (1 ≤ result) × (result ≤ 65025) }
{
    (p.slices_across as usize) * (p.slices_down as usize)
}

// The byte at which slice k starts, and the one before it ends.
pub fn slice_start(p: LowDelay, k: usize) -> usize
    requires { SoundFraction p × (k ≤ 65025) }
    ensures { (result ≡ slice_start p k) × (result ≤ 65025 * 65535) }
{
    k * (p.numerator as usize) / (p.denominator as usize)
}
