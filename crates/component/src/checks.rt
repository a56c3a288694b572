// Document 01, "Refusal numbers": the checks behind refusals 1 to 5.
ghost use Rattle.std.specs.Prelude.{◌≡◌, true, not, ◌&&◌};
ghost use Rattle.base.specs.Refusals.{status_of};
ghost use Rattle.component.specs.Checks.{in_range, unpacks, transforms, area_of, area_within, sizes_in_range, depth_in_range, wavelet_in_range, codeblocks_in_range, planes_fit, refusal_of};
ghost use Rattle.component.specs.Sized.{Sized};

use crate::parameters::{Job, Lengths, Parameters};
use crate::sizes::padded_size;
use base::limits;
use base::status::Refusal;

// The first of refusals 1 to 5 that applies to a job, in the order of their numbers.
#[tactic(auto, unfolding(crate::specs::Checks::refusal_of))]
pub fn check(job: Job, p: Parameters, lengths: Lengths) -> Result<(), Refusal>
    ensures { status_of result ≡ refusal_of job p lengths }
{
    if !sizes_in_range(p) {
        return Err(Refusal::Size);
    }
    if !depth_in_range(p) {
        return Err(Refusal::Depth);
    }
    if wavelet_refused(job, p) {
        return Err(Refusal::Wavelet);
    }
    if codeblocks_refused(job, p) {
        return Err(Refusal::Codeblocks);
    }
    if !planes_fit(job, p, lengths) {
        return Err(Refusal::Planes);
    }
    Ok(())
}

// Whether the number lies in a range, both ends included.
pub fn in_range(low: u32, high: u32, n: u32) -> bool
    ensures { result ≡ in_range low high n }
{
    low <= n && n <= high
}

// Whether a job looks at the wavelet index and finds it out of range.
#[tactic(auto, unfolding(crate::specs::Checks::wavelet_in_range))]
fn wavelet_refused(job: Job, p: Parameters) -> bool
    ensures { result ≡ transforms job && not (wavelet_in_range p) }
{
    job.transforms() && !in_range(0, limits::WAVELET_MOST, p.wavelet)
}

// Whether a job looks at the codeblock counts and finds one out of range.
fn codeblocks_refused(job: Job, p: Parameters) -> bool
    requires { depth_in_range p ≡ true }
    ensures { result ≡ unpacks job && not (codeblocks_in_range p) }
{
    job.unpacks() && !codeblocks_in_range(p)
}

impl Job {
    // Whether a job reads bytes into coefficients.
    fn unpacks(self) -> bool
        ensures { result ≡ unpacks self }
    {
        matches!(self, Job::Unpack | Job::Decode)
    }

    // Whether a job makes samples of coefficients.
    fn transforms(self) -> bool
        ensures { result ≡ transforms self }
    {
        matches!(self, Job::Synthesise | Job::Decode)
    }
}

// Whether width and height are in range.
#[tactic(auto, unfolding(crate::specs::Checks::sizes_in_range))]
pub fn sizes_in_range(p: Parameters) -> bool
    ensures { result ≡ sizes_in_range p }
{
    in_range(1, limits::SIZE_MOST, p.width) && in_range(1, limits::SIZE_MOST, p.height)
}

// Whether the depth is in range.
#[tactic(auto, unfolding(crate::specs::Checks::depth_in_range))]
fn depth_in_range(p: Parameters) -> bool
    ensures { result ≡ depth_in_range p }
{
    in_range(0, limits::DEPTH_MOST, p.depth)
}

// Whether the codeblock counts of levels 0 to depth are in range.
fn codeblocks_in_range(p: Parameters) -> bool
    requires { depth_in_range p ≡ true }
    ensures { result ≡ codeblocks_in_range p }
{
    for level in 0..=p.depth as usize {
        if !counts_in_range(p.codeblocks_across[level], p.codeblocks_down[level]) {
            return false;
        }
    }
    true
}

// Whether a level's two codeblock counts are in range.
fn counts_in_range(across: u32, down: u32) -> bool
    ensures { result ≡ in_range 1 255 across && in_range 1 255 down }
{
    in_range(1, limits::CODEBLOCKS_MOST, across) && in_range(1, limits::CODEBLOCKS_MOST, down)
}

// Whether each plane of a job has exactly the length it needs.
#[tactic(auto, unfolding(crate::specs::Checks::planes_fit))]
fn planes_fit(job: Job, p: Parameters, lengths: Lengths) -> bool
    requires { Sized p }
    ensures { result ≡ planes_fit job p lengths }
{
    let area = padded_area(p);
    lengths.coefficients == area
        && (!job.transforms()
            || (lengths.work == area && lengths.samples == p.width as usize * p.height as usize))
}

// How many entries the coefficient plane has.
pub fn padded_area(p: Parameters) -> usize
    requires { Sized p }
    ensures { result ≡ area_of p }
{
    let depth = p.depth as usize;
    padded_size(depth, p.width as usize) * padded_size(depth, p.height as usize)
}

// Whether parameters have a padded area, of at most so many entries.
#[tactic(auto, unfolding(crate::specs::Checks::area_within))]
pub fn area_within(p: Parameters, most: usize) -> bool
    ensures { result ≡ area_within p most }
{
    sizes_in_range(p) && depth_in_range(p) && padded_area(p) <= most
}
