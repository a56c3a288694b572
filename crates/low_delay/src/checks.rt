// Document 02, request Four: the checks behind refusals 1, 2, 13 and 5.
ghost use Rattle.std.specs.Prelude.{◌≡◌, ◌&&◌, ◌≤◌};
ghost use Rattle.base.specs.Refusals.{status_of};
ghost use Rattle.component.specs.Checks.{in_range};
ghost use Rattle.slices.specs.Areas.{grid_of};
ghost use Rattle.slices.specs.Planes.{Planes};
ghost use Rattle.slices.specs.Bounds.{Checked};
ghost use Rattle.low_delay.specs.Job.{sizes_in_range, counts_in_range, fraction_in_range, matrix_in_range, slices_in_range, entries_of, planes_fit, refusal_of};
ghost use Rattle.low_delay.specs.Bounds.{PlanesOfLengths};

use crate::parameters::LowDelay;
use base::limits;
use base::status::Refusal;
use component::checks::in_range;
use component::subbands::subband_count;
use slices::areas::grid_of;
use slices::parameters::Picture;

// The first of these refusals that applies to planes of these lengths.
#[tactic(auto, unfolding(crate::specs::Job::refusal_of))]
pub fn check(p: LowDelay, luma: usize, first: usize, second: usize) -> Result<(), Refusal>
    ensures { (planes : Planes) → PlanesOfLengths luma first second planes → status_of result ≡ refusal_of p planes }
{
    let picture = p.picture;
    if !sizes_in_range(picture) {
        return Err(Refusal::Size);
    }
    if !in_range(0, limits::DEPTH_MOST, picture.depth) {
        return Err(Refusal::Depth);
    }
    if !slices_in_range(p) {
        return Err(Refusal::Slices);
    }
    if !planes_fit(picture, luma, first, second) {
        return Err(Refusal::Planes);
    }
    Ok(())
}

// Whether the sizes of luma and of the chroma pair are in range.
#[tactic(auto, unfolding(crate::specs::Job::sizes_in_range))]
fn sizes_in_range(p: Picture) -> bool
    ensures { result ≡ sizes_in_range p }
{
    size_in_range(p.luma_width, p.luma_height) && size_in_range(p.chroma_width, p.chroma_height)
}

// Whether a width and a height are in range.
fn size_in_range(width: u32, height: u32) -> bool
    ensures { result ≡ in_range 1 4096 width && in_range 1 4096 height }
{
    in_range(1, limits::SIZE_MOST, width) && in_range(1, limits::SIZE_MOST, height)
}

// Whether the counts of slices, the fraction and the matrix are in range.
#[tactic(auto, unfolding(crate::specs::Job::slices_in_range))]
fn slices_in_range(p: LowDelay) -> bool
    requires { p.picture.depth ≤ 4 }
    ensures { result ≡ slices_in_range p }
{
    counts_in_range(p.picture) && fraction_in_range(p) && matrix_in_range(p.picture)
}

// Whether the counts of slices are in range.
#[tactic(auto, unfolding(crate::specs::Job::counts_in_range))]
fn counts_in_range(p: Picture) -> bool
    ensures { result ≡ counts_in_range p }
{
    in_range(1, limits::SLICES_MOST, p.slices_across)
        && in_range(1, limits::SLICES_MOST, p.slices_down)
}

// Whether both numbers of the fraction are in range, and it is at least 1.
#[tactic(auto, unfolding(crate::specs::Job::fraction_in_range))]
fn fraction_in_range(p: LowDelay) -> bool
    ensures { result ≡ fraction_in_range p }
{
    in_range(1, limits::FRACTION_MOST, p.numerator)
        && in_range(1, limits::FRACTION_MOST, p.denominator)
        && p.denominator <= p.numerator
}

// Whether every entry of the matrix that a subband uses is in range.
fn matrix_in_range(p: Picture) -> bool
    requires { p.depth ≤ 4 }
    ensures { result ≡ matrix_in_range p }
{
    let count = subband_count(p.depth as usize);
    p.matrix[..count]
        .iter()
        .all(|entry| *entry <= limits::MATRIX_MOST)
}

// Whether each plane has exactly the length it needs.
#[tactic(auto, unfolding(crate::specs::Job::planes_fit))]
fn planes_fit(p: Picture, luma: usize, first: usize, second: usize) -> bool
    requires { Checked p }
    ensures { (planes : Planes) → PlanesOfLengths luma first second planes → result ≡ planes_fit p planes }
{
    let chroma = entries_of(p, p.chroma_width, p.chroma_height);
    luma == entries_of(p, p.luma_width, p.luma_height) && first == chroma && second == chroma
}

// How many entries the plane of a component of a width and height has.
fn entries_of(p: Picture, width: u32, height: u32) -> usize
    requires { Checked p × (width ≤ 4096) × (height ≤ 4096) }
    ensures { result ≡ entries_of (grid_of p width height) }
{
    let g = grid_of(p, width, height);
    g.width * g.height
}
