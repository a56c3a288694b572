// "the extremes of 32 bits", by synthesise. By wavelet 1 the sums inside a step are larger than 32 bits, and what they give is not.
ghost use Rattle.std.specs.Prelude.{◌≤◌, length};

use crate::output::print_case;
use component::parameters::{Answer, Parameters};
use std::io;

// Synthesises pictures whose numbers come to the greatest, and one beyond it.
pub(crate) fn synthesise_greatest(rt: &impl Print) -> io::Result<()> {
    synthesise_level(rt, b"LL 2147483647 by wavelet 3", 3, i32::MAX, 0)?;
    synthesise_level(rt, b"LL 2147483647 and LH 1 by wavelet 3", 3, i32::MAX, 1)?;
    synthesise_level(rt, b"LL 2147483647 and LH 2 by wavelet 3", 3, i32::MAX, 2)?;
    synthesise_level(rt, b"LL 2147483647 by wavelet 1", 1, i32::MAX, 0)
}

// Synthesises pictures whose numbers come to the least, and one beyond it.
pub(crate) fn synthesise_least(rt: &impl Print) -> io::Result<()> {
    synthesise_level(rt, b"LL -2147483648 by wavelet 3", 3, i32::MIN, 0)?;
    synthesise_level(rt, b"LL -2147483648 and LH 1 by wavelet 3", 3, i32::MIN, 1)?;
    synthesise_level(rt, b"LL -2147483648 by wavelet 1", 1, i32::MIN, 0)
}

// Synthesises pictures of two levels: one whose numbers stay within 32 bits, and ones that leave them at level 1 and at level 2.
pub(crate) fn synthesise_deeper(rt: &impl Print) -> io::Result<()> {
    synthesise_levels(rt, b"LL 2147483647 at depth 2 by wavelet 3", 0, 0)?;
    synthesise_levels(rt, b"LL 2147483647 and LH 2 at level 1 by wavelet 3", 2, 0)?;
    synthesise_levels(rt, b"LL 2147483647 and LH 2 at level 2 by wavelet 3", 0, 2)
}

// Synthesises 2 by 2 samples of one level, and writes the line of the case.
fn synthesise_level(
    rt: &impl Print,
    case: &[u8],
    wavelet: u32,
    ll: i32,
    lh: i32,
) -> io::Result<()> {
    let coefficients = [ll, 0, lh, 0];
    let mut work = [7i32; 4];
    let mut samples = [7i32; 4];
    synthesise_and_print(
        rt,
        case,
        square_of(2, 1, wavelet),
        &coefficients,
        &mut work,
        &mut samples,
    )
}

// Synthesises 4 by 4 samples of two levels, with one entry in the LH of each, and writes the line of the case.
fn synthesise_levels(rt: &impl Print, case: &[u8], lh1: i32, lh2: i32) -> io::Result<()> {
    let coefficients = [i32::MAX, 0, 0, 0, lh1, 0, 0, 0, lh2, 0, 0, 0, 0, 0, 0, 0];
    let mut work = [7i32; 16];
    let mut samples = [7i32; 16];
    synthesise_and_print(
        rt,
        case,
        square_of(4, 2, 3),
        &coefficients,
        &mut work,
        &mut samples,
    )
}

// The parameters of a square picture.
fn square_of(size: u32, depth: u32, wavelet: u32) -> Parameters {
    let counts = [1u32; 5];
    Parameters {
        width: size,
        height: size,
        depth,
        wavelet,
        intra: false,
        codeblocks_across: counts,
        codeblocks_down: counts,
    }
}

// Synthesises samples of coefficients, and writes the line of the case, with all samples.
fn synthesise_and_print(
    rt: &impl Print,
    case: &[u8],
    p: Parameters,
    coefficients: &[i32],
    work: &mut [i32],
    samples: &mut [i32],
) -> io::Result<()>
    requires { length samples.old ≤ 16 }
{
    let synthesised = transform::synthesise(p, coefficients, work, samples);
    print_case(rt, case, Answer::from(synthesised), samples)
}
