// Document 01, "A recording": how much of the program's planes an entry takes.
ghost use Rattle.std.specs.Prelude.{◌≡◌};
ghost use Rattle.recording.specs.Output.{fits_program, plane_length, sample_length};

use crate::AREA_MOST;
use component::checks::{area_within, padded_area};
use component::parameters::Parameters;

// Whether an entry is decoded: its sizes and depth are in range, and its padded area is at most 16,384.
#[tactic(auto, unfolding(crate::specs::Output::fits_program))]
fn fits_program(p: Parameters) -> bool
    ensures { result ≡ fits_program p }
{
    area_within(p, AREA_MOST)
}

// How many coefficients an entry has, and as much work.
pub fn plane_length(p: Parameters) -> usize
    ensures { result ≡ plane_length p }
{
    if fits_program(p) { padded_area(p) } else { 0 }
}

// How many samples an entry has.
pub fn sample_length(p: Parameters) -> usize
    ensures { result ≡ sample_length p }
{
    if fits_program(p) {
        (p.width as usize) * (p.height as usize)
    } else {
        0
    }
}
