// The jobs of the input: a header and a plane of coefficients, every number big-endian.
use component::parameters::Parameters;
use std::io;
use std::io::Read;
use text::read_full;
use vector_io::two_bytes;

// How many bytes a job's header has.
pub(crate) const HEADER_SIZE: usize = 6;

// How many bytes a coefficient has.
const COEFFICIENT_SIZE: usize = 4;

// The parameters that a job's header gives: width, height, depth and wavelet.
pub(crate) fn parameters_of(header: &[u8; HEADER_SIZE]) -> Parameters {
    let counts = [1u32; 5];
    Parameters {
        width: two_bytes(header[0], header[1]),
        height: two_bytes(header[2], header[3]),
        depth: u32::from(header[4]),
        wavelet: u32::from(header[5]),
        intra: false,
        codeblocks_across: counts,
        codeblocks_down: counts,
    }
}

// Reads a whole plane from the input. False where the input ends before the plane does: that is all that a caller asks.
pub(crate) fn read_plane(input: &mut impl Read, plane: &mut [i32]) -> io::Result<bool> {
    for entry in plane.iter_mut() {
        match read_coefficient(input)? {
            Some(coefficient) => *entry = coefficient,
            None => return Ok(false),
        }
    }
    Ok(true)
}

// Reads one coefficient from the input. None where the input ends before it does.
fn read_coefficient(input: &mut impl Read) -> io::Result<Option<i32>> {
    let mut bytes = [0u8; COEFFICIENT_SIZE];
    if read_full(input, &mut bytes)? < COEFFICIENT_SIZE {
        return Ok(None);
    }
    Ok(Some(i32::from_be_bytes(bytes)))
}
