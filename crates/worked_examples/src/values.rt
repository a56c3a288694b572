// "index 115 and 116; 31 and 32 data bits; empty bytes (6, place 0); the extremes of 32 bits", by unpack; and document 02's request Three.
ghost use Rattle.std.specs.Prelude.{◌≤◌, length};

use crate::output::print_case;
use component::parameters::{Answer, Parameters};
use std::io;

// Unpacks values at quantiser indices 115 and 116.
pub(crate) fn unpack_indices(rt: &impl Print) -> io::Result<()> {
    unpack_value(rt, b"value 1 at index 115", b"\x2a\x21\x20")?;
    unpack_value(rt, b"value 4 at index 115", b"\x2a\x21\x18")?;
    unpack_value(rt, b"value 5 at index 115", b"\x2a\x21\x48")?;
    unpack_value(rt, b"value 1 at index 116", b"\x2a\x23\x20")
}

// Unpacks values of pictures that are intra and not: "A magnitude 1 at index 12 reads 12 in intra and 11 otherwise."
pub(crate) fn unpack_both_offsets(rt: &impl Print) -> io::Result<()> {
    unpack_value(rt, b"value 1 at index 12, intra", b"\x28\xc0\x20")?;
    unpack_difference(rt, b"value 1 at index 12, not intra", b"\x28\xc0\x20")?;
    unpack_difference(rt, b"value 1 at index 115, not intra", b"\x2a\x21\x20")
}

// Unpacks subbands whose length or index has 31 and 32 data bits, or ends within the 31st.
pub(crate) fn unpack_longest_headers(rt: &impl Print) -> io::Result<()> {
    unpack_value(
        rt,
        b"length of 31 data bits, no data",
        b"\x00\x00\x00\x00\x00\x00\x00\x03",
    )?;
    unpack_value(
        rt,
        b"length of 32 data bits",
        b"\x00\x00\x00\x00\x00\x00\x00\x00\x80",
    )?;
    unpack_value(
        rt,
        b"index of 31 data bits",
        b"\x20\x00\x00\x00\x00\x00\x00\x00\x40",
    )?;
    unpack_value(
        rt,
        b"index of 32 data bits",
        b"\x20\x00\x00\x00\x00\x00\x00\x00\x10",
    )?;
    unpack_value(
        rt,
        b"index that ends before its 31st data bit",
        b"\x20\x00\x00\x00\x00\x00\x00\x00",
    )
}

// Unpacks values of 31 and of 32 data bits, and of 31 with nothing after them.
pub(crate) fn unpack_longest_values(rt: &impl Print) -> io::Result<()> {
    unpack_value(
        rt,
        b"value of 31 data bits, each 1",
        b"\x07\x55\x55\x55\x55\x55\x55\x55\x56",
    )?;
    unpack_value(
        rt,
        b"value of 32 data bits",
        b"\x13\x00\x00\x00\x00\x00\x00\x00\x00\x80",
    )?;
    unpack_three(
        rt,
        b"values 0, 0 and one that ends after its 31st data bit",
        b"\x07\xc0\x00\x00\x00\x00\x00\x00\x00",
    )
}

// Unpacks empty bytes.
pub(crate) fn unpack_empty(rt: &impl Print) -> io::Result<()> {
    unpack_value(rt, b"empty bytes", b"")
}

// Unpacks the greatest and the least value, and one beyond each.
pub(crate) fn unpack_extremes(rt: &impl Print) -> io::Result<()> {
    unpack_value(
        rt,
        b"value 2147483647",
        b"\x07\x00\x00\x00\x00\x00\x00\x00\x02",
    )?;
    unpack_value(
        rt,
        b"value 2147483648",
        b"\x07\x00\x00\x00\x00\x00\x00\x00\x06",
    )?;
    unpack_value(
        rt,
        b"value -2147483648",
        b"\x07\x00\x00\x00\x00\x00\x00\x00\x07",
    )?;
    unpack_value(
        rt,
        b"value -2147483649",
        b"\x07\x00\x00\x00\x00\x00\x00\x00\x13",
    )
}

// Unpacks values that prediction takes to the extremes and beyond.
pub(crate) fn unpack_predicted_extremes(rt: &impl Print) -> io::Result<()> {
    unpack_predicted(
        rt,
        b"values 2147483647 and 0, predicted",
        b"\x07\x00\x00\x00\x00\x00\x00\x00\x02",
    )?;
    unpack_predicted(
        rt,
        b"values 2147483647 and 1, predicted",
        b"\x13\x00\x00\x00\x00\x00\x00\x00\x02\x20",
    )?;
    unpack_predicted(
        rt,
        b"values -2147483648 and 0, predicted",
        b"\x13\x00\x00\x00\x00\x00\x00\x00\x07\x80",
    )?;
    unpack_predicted(
        rt,
        b"values -2147483648 and -1, predicted",
        b"\x13\x00\x00\x00\x00\x00\x00\x00\x07\x30",
    )
}

// Unpacks one value of an intra picture, to which prediction adds 0, and writes the line of the case.
fn unpack_value(rt: &impl Print, case: &[u8], bytes: &[u8]) -> io::Result<()> {
    let mut plane = [7i32; 1];
    unpack_and_print(rt, case, row_of(1, true), bytes, &mut plane)
}

// Unpacks one value of a picture that is not intra, and writes the line of the case.
fn unpack_difference(rt: &impl Print, case: &[u8], bytes: &[u8]) -> io::Result<()> {
    let mut plane = [7i32; 1];
    unpack_and_print(rt, case, row_of(1, false), bytes, &mut plane)
}

// Unpacks a row of three values, and writes the line of the case.
fn unpack_three(rt: &impl Print, case: &[u8], bytes: &[u8]) -> io::Result<()> {
    let mut plane = [7i32; 3];
    unpack_and_print(rt, case, row_of(3, false), bytes, &mut plane)
}

// Unpacks a row of two values with prediction, and writes the line of the case.
fn unpack_predicted(rt: &impl Print, case: &[u8], bytes: &[u8]) -> io::Result<()> {
    let mut plane = [7i32; 2];
    unpack_and_print(rt, case, row_of(2, true), bytes, &mut plane)
}

// The parameters of one row at depth 0, in one codeblock.
fn row_of(width: u32, intra: bool) -> Parameters {
    let counts = [1u32; 5];
    Parameters {
        width,
        height: 1,
        depth: 0,
        wavelet: 0,
        intra,
        codeblocks_across: counts,
        codeblocks_down: counts,
    }
}

// Unpacks bytes into a plane, and writes the line of the case, with the whole plane.
fn unpack_and_print(
    rt: &impl Print,
    case: &[u8],
    p: Parameters,
    bytes: &[u8],
    plane: &mut [i32],
) -> io::Result<()>
    requires { length plane.old ≤ 16 }
{
    let unpacked = unpack::unpack(p, bytes, plane);
    print_case(rt, case, Answer::from(unpacked), plane)
}
