// Runs synthesise on the jobs of the standard input and writes what each gives to the standard output. The independent decoder made the
// stored input and the expected output, and says what they look like (host/vectors/src/synthesis_vectors.rs).
#![tactic(auto)]

mod input;
mod output;

ghost use Rattle.std.specs.Prelude.{◌*◌, ◌≤◌, IfSome};

use crate::input::{HEADER_SIZE, parameters_of, read_plane};
use crate::output::{print_answer, print_rows};
use base::status::Refusal;
use component::checks::{area_within, padded_area};
use component::parameters::{Answer, Parameters};
use std::io;
use std::io::Read;
use text::read_full;
use vector_io::{bad_input, fill_plane};

// The most coefficients of a job, and so the most samples.
const AREA_MOST: usize = 65536;

// Room for the planes of a job.
#[derive(Drop)]
struct Planes {
    coefficients: [i32; AREA_MOST],
    work: [i32; AREA_MOST],
    samples: [i32; AREA_MOST],
}

// Runs the jobs of the input. A proved loop has to end, so this one takes at most a number of turns that no run uses up.
fn main(rt: HostRuntime) -> io::Result<()> {
    let mut input = rt.stdin();
    let mut planes = Planes {
        coefficients: [0; AREA_MOST],
        work: [0; AREA_MOST],
        samples: [0; AREA_MOST],
    };
    for _ in 0..u64::MAX {
        if !run_next(&rt, &mut input, &mut planes)? {
            break;
        }
    }
    Ok(())
}

// Reads the next job and runs it. Answers whether the input may have another.
fn run_next(rt: &impl Print, input: &mut impl Read, planes: &mut Planes) -> io::Result<bool> {
    let mut header = [0u8; HEADER_SIZE];
    let got = read_full(input, &mut header)?;
    if got == 0 {
        return Ok(false);
    }
    if got < HEADER_SIZE {
        return bad_input(rt);
    }
    let p = parameters_of(&header);
    match coefficient_count(p) {
        Some(count) => run_job(rt, input, p, count, planes),
        None => bad_input(rt),
    }
}

// Reads the coefficients of a job, so many, and runs it. Answers whether the input may have another.
fn run_job(
    rt: &impl Print,
    input: &mut impl Read,
    p: Parameters,
    count: usize,
    planes: &mut Planes,
) -> io::Result<bool>
    requires { (count ≤ 65536) × (1 ≤ p.width) × (p.width ≤ 4096) × (p.width * p.height ≤ count) }
{
    let coefficients = &mut planes.coefficients[..];
    let work = &mut planes.work[..];
    let samples = &mut planes.samples[..];
    if !read_plane(input, &mut coefficients[..count])? {
        return bad_input(rt);
    }
    let sample_count = (p.width as usize) * (p.height as usize);
    synthesise_and_print(
        rt,
        p,
        &coefficients[..count],
        &mut work[..count],
        &mut samples[..sample_count],
    )?;
    Ok(true)
}

// How many coefficients a job has, where its sizes and depth are in range and the plane is not too large.
fn coefficient_count(p: Parameters) -> Option<usize>
    ensures { IfSome result (λ count. (count ≤ 65536) × (1 ≤ p.width) × (p.width ≤ 4096) × (p.width * p.height ≤ count)) }
{
    if area_within(p, AREA_MOST) {
        Some(padded_area(p))
    } else {
        None
    }
}

// Synthesises in planes that hold something already, and writes the answer, the samples, and what is wrong with the planes.
fn synthesise_and_print(
    rt: &impl Print,
    p: Parameters,
    coefficients: &[i32],
    work: &mut [i32],
    samples: &mut [i32],
) -> io::Result<()>
    requires { (1 ≤ p.width) × (p.width ≤ 4096) }
{
    fill_plane(work, 7);
    fill_plane(samples, 7);
    let synthesised = transform::synthesise(p, coefficients, work, samples);
    print_answer(rt, p, Answer::from(synthesised))?;
    if synthesised.is_ok() {
        print_rows(rt, samples, p.width as usize)?;
    }
    let overflowed = synthesised.is_err_and(|refused| refused.refusal
        == Refusal::SynthesisOutOfRange);
    if (synthesised.is_ok() || overflowed) && !is_zero(work) {
        rt.write_all(b"work not zero\n")?;
    }
    if overflowed && !is_zero(samples) {
        rt.write_all(b"samples not zero\n")?;
    }
    Ok(())
}

// Whether the whole plane is zero.
fn is_zero(plane: &[i32]) -> bool {
    plane.iter().all(|entry| *entry == 0)
}
