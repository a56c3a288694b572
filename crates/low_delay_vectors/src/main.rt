// Runs unpack_low_delay on the jobs of the standard input and writes what each gives to the standard output. The independent decoder made
// the stored input and the expected output, and says what they look like (host/vectors/src/low_delay_vectors.rs).
#![tactic(auto)]

mod input;
mod output;

ghost use Rattle.std.specs.Prelude.{◌≡◌, true, ◌≤◌, length};

use crate::input::{HEADER_SIZE, Lengths, lengths_of, parameters_of};
use crate::output::print_answer;
use component::parameters::Answer;
use low_delay::parameters::LowDelay;
use low_delay::unpack_low_delay;
use std::io;
use std::io::Read;
use text::read_full;
use vector_io::{bad_input, fill_plane, print_row};

// Room for the longest data of a job.
const BYTES_MOST: usize = 16384;

// Room for the largest plane of a job.
const PLANE_MOST: usize = 4096;

// Room for the data and the planes of a job.
#[derive(Drop)]
struct Room {
    bytes: [u8; BYTES_MOST],
    luma: [i32; PLANE_MOST],
    first: [i32; PLANE_MOST],
    second: [i32; PLANE_MOST],
}

// Runs the jobs of the input. A proved loop has to end, so this one takes at most a number of turns that no run uses up.
fn main(rt: HostRuntime) -> io::Result<()> {
    let mut input = rt.stdin();
    let mut room = Room {
        bytes: [0; BYTES_MOST],
        luma: [0; PLANE_MOST],
        first: [0; PLANE_MOST],
        second: [0; PLANE_MOST],
    };
    for _ in 0..u64::MAX {
        if !run_next(&rt, &mut input, &mut room)? {
            break;
        }
    }
    Ok(())
}

// Reads the next job and runs it. Answers whether the input may have another.
fn run_next(rt: &impl Print, input: &mut impl Read, room: &mut Room) -> io::Result<bool> {
    let mut header = [0u8; HEADER_SIZE];
    let got = read_full(input, &mut header)?;
    if got == 0 {
        return Ok(false);
    }
    if got < HEADER_SIZE {
        return bad_input(rt);
    }
    let lengths = lengths_of(&header);
    if !has_room(lengths) {
        return bad_input(rt);
    }
    run_job(rt, input, parameters_of(&header), lengths, room)
}

// Whether there is room for the data and the planes of a job.
fn has_room(n: Lengths) -> bool
    ensures { result ≡ true → (n.bytes ≤ 16384) × (n.luma ≤ 4096) × (n.first ≤ 4096) × (n.second ≤ 4096) }
{
    n.bytes <= BYTES_MOST && n.luma <= PLANE_MOST && n.first <= PLANE_MOST && n.second <= PLANE_MOST
}

// Reads the data of a job and runs it in planes of its lengths. Answers whether the input may have another.
fn run_job(
    rt: &impl Print,
    input: &mut impl Read,
    p: LowDelay,
    n: Lengths,
    room: &mut Room,
) -> io::Result<bool>
    requires { (n.bytes ≤ 16384) × (n.luma ≤ 4096) × (n.first ≤ 4096) × (n.second ≤ 4096) }
{
    let bytes = &mut room.bytes[..];
    let luma = &mut room.luma[..];
    let first = &mut room.first[..];
    let second = &mut room.second[..];
    if read_full(input, &mut bytes[..n.bytes])? < n.bytes {
        return bad_input(rt);
    }
    unpack_and_print(
        rt,
        p,
        &bytes[..n.bytes],
        &mut luma[..n.luma],
        &mut first[..n.first],
        &mut second[..n.second],
    )?;
    Ok(true)
}

// Unpacks into planes that hold sevens, and writes the answer and each whole plane, as one row.
fn unpack_and_print(
    rt: &impl Print,
    p: LowDelay,
    bytes: &[u8],
    luma: &mut [i32],
    first: &mut [i32],
    second: &mut [i32],
) -> io::Result<()>
    requires { (length luma.old ≤ 4096) × (length first.old ≤ 4096) × (length second.old ≤ 4096) }
{
    fill_plane(luma, 7);
    fill_plane(first, 7);
    fill_plane(second, 7);
    let outcome = unpack_low_delay(p, bytes, luma, first, second);
    print_answer(rt, p, bytes.len(), Answer::from(outcome))?;
    print_row(&mut io::writer(rt), luma)?;
    print_row(&mut io::writer(rt), first)?;
    print_row(&mut io::writer(rt), second)
}
