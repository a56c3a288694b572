// Document 02's request Four, by unpack_low_delay: a picture of two slices, and pictures of one short slice.
ghost use Rattle.std.specs.Prelude.{◌≤◌, length};

use crate::output::{print_case, print_plane};
use component::parameters::Answer;
use low_delay::parameters::LowDelay;
use low_delay::unpack_low_delay;
use slices::parameters::Picture;
use std::io;

// Unpacks 4 by 2 samples of luma and 2 by 2 of chroma in slices of 4 and 5 bytes, with a matrix.
pub(crate) fn unpack_two_slices(rt: &impl Print) -> io::Result<()> {
    let matrix = [2u32, 0, 0, 1, 0, 0, 0, 0, 0, 0, 0, 0, 0];
    let p = LowDelay {
        picture: Picture {
            luma_width: 4,
            luma_height: 2,
            chroma_width: 2,
            chroma_height: 2,
            depth: 1,
            intra: true,
            slices_across: 2,
            slices_down: 1,
            matrix,
        },
        numerator: 9,
        denominator: 2,
    };
    let mut luma = [7i32; 8];
    let mut first = [7i32; 4];
    let mut second = [7i32; 4];
    unpack_planes(
        rt,
        b"slices of 4 and 5 bytes",
        p,
        b"\x08\xf0\x8e\x5f\x04\x53\xca\x47\x6f",
        &mut luma,
        &mut first,
        &mut second,
    )
}

// Unpacks slices of one byte, which has one bit for values, and slices whose luma length is the number of bits left, and one more.
pub(crate) fn unpack_short_slices(rt: &impl Print) -> io::Result<()> {
    unpack_one_slice(rt, b"slice of one byte that ends with 0", b"\x00", 1)?;
    unpack_one_slice(rt, b"slice of one byte that ends with 1", b"\x01", 1)?;
    unpack_one_slice(rt, b"luma length 5 where 5 bits are left", b"\x00\xa0", 2)?;
    unpack_one_slice(rt, b"luma length 6 where 5 bits are left", b"\x00\xc0", 2)
}

// Unpacks one sample of each component in one slice of so many bytes, and writes the lines of the case.
fn unpack_one_slice(rt: &impl Print, case: &[u8], bytes: &[u8], size: u32) -> io::Result<()> {
    let matrix = [0u32; 13];
    let p = LowDelay {
        picture: Picture {
            luma_width: 1,
            luma_height: 1,
            chroma_width: 1,
            chroma_height: 1,
            depth: 0,
            intra: true,
            slices_across: 1,
            slices_down: 1,
            matrix,
        },
        numerator: size,
        denominator: 1,
    };
    let mut luma = [7i32; 1];
    let mut first = [7i32; 1];
    let mut second = [7i32; 1];
    unpack_planes(rt, case, p, bytes, &mut luma, &mut first, &mut second)
}

// Unpacks bytes into three planes, and writes the lines of the case, with the whole planes.
fn unpack_planes(
    rt: &impl Print,
    case: &[u8],
    p: LowDelay,
    bytes: &[u8],
    luma: &mut [i32],
    first: &mut [i32],
    second: &mut [i32],
) -> io::Result<()>
    requires { (length luma.old ≤ 16) × (length first.old ≤ 16) × (length second.old ≤ 16) }
{
    let unpacked = unpack_low_delay(p, bytes, luma, first, second);
    print_case(rt, case, Answer::from(unpacked), luma)?;
    print_plane(rt, b"C1: ", first)?;
    print_plane(rt, b"C2: ", second)
}
