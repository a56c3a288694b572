// Runs unpack on the jobs of the standard input and writes what each gives to the standard output. The independent decoder made the
// stored input and the expected output, and says what they look like (host/vectors/src/unpack_vectors.rs).
#![tactic(auto)]

mod input;
mod output;

ghost use Rattle.std.specs.Prelude.{◌≤◌, length};

use crate::input::{HEADER_SIZE, byte_count, parameters_of, plane_length};
use crate::output::print_answer;
use component::parameters::{Answer, Parameters};
use std::io;
use std::io::Read;
use text::read_full;
use vector_io::{bad_input, fill_plane, print_row};

// Room for the longest data of a job.
const BYTES_MOST: usize = 16384;

// Room for the largest plane of a job.
const PLANE_MOST: usize = 4096;

// Runs the jobs of the input. A proved loop has to end, so this one takes at most a number of turns that no run uses up.
fn main(rt: HostRuntime) -> io::Result<()> {
    let mut input = rt.stdin();
    let mut bytes = [0u8; BYTES_MOST];
    let mut plane = [0i32; PLANE_MOST];
    for _ in 0..u64::MAX {
        if !run_next(&rt, &mut input, &mut bytes, &mut plane)? {
            break;
        }
    }
    Ok(())
}

// Reads the next job and runs it, with room for the longest data and the largest plane. Answers whether the input may have another.
fn run_next(
    rt: &impl Print,
    input: &mut impl Read,
    bytes: &mut [u8; BYTES_MOST],
    plane: &mut [i32; PLANE_MOST],
) -> io::Result<bool> {
    let mut header = [0u8; HEADER_SIZE];
    let got = read_full(input, &mut header)?;
    if got == 0 {
        return Ok(false);
    }
    if got < HEADER_SIZE {
        return bad_input(rt);
    }
    let count = byte_count(&header);
    let entries = plane_length(&header);
    run_job(
        rt,
        input,
        parameters_of(&header),
        count,
        entries,
        bytes,
        plane,
    )
}

// Reads the data of a job, of so many bytes, and runs it in a plane of so many entries. Answers whether the input may have another.
fn run_job(
    rt: &impl Print,
    input: &mut impl Read,
    p: Parameters,
    count: usize,
    entries: usize,
    bytes: &mut [u8],
    plane: &mut [i32],
) -> io::Result<bool>
    requires { (16384 ≤ length bytes.old) × (4096 ≤ length plane.old) }
{
    if count > BYTES_MOST || entries > PLANE_MOST {
        return bad_input(rt);
    }
    if read_full(input, &mut bytes[..count])? < count {
        return bad_input(rt);
    }
    unpack_and_print(rt, p, &bytes[..count], &mut plane[..entries])?;
    Ok(true)
}

// Unpacks into a plane that holds sevens, and writes the answer and the whole plane, as one row.
fn unpack_and_print(
    rt: &impl Print,
    p: Parameters,
    bytes: &[u8],
    plane: &mut [i32],
) -> io::Result<()>
    requires { length plane.old ≤ 4096 }
{
    fill_plane(plane, 7);
    let unpacked = unpack::unpack(p, bytes, plane);
    print_answer(rt, p, bytes.len(), Answer::from(unpacked))?;
    print_row(&mut io::writer(rt), plane)
}
