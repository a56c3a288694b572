// The header of a job of the input, every number big-endian.
use component::parameters::Parameters;
use std::array;
use vector_io::two_bytes;

// How many bytes a job's header has.
pub(crate) const HEADER_SIZE: usize = 21;

// The parameters that a job's header gives: width, height, depth, wavelet, intra, and the codeblocks across and down at each level.
pub(crate) fn parameters_of(header: &[u8; HEADER_SIZE]) -> Parameters {
    Parameters {
        width: two_bytes(header[0], header[1]),
        height: two_bytes(header[2], header[3]),
        depth: u32::from(header[4]),
        wavelet: u32::from(header[5]),
        intra: header[6] != 0,
        codeblocks_across: array::from_fn(|level| u32::from(header[7 + level])),
        codeblocks_down: array::from_fn(|level| u32::from(header[12 + level])),
    }
}

// How many entries the plane of a job has.
pub(crate) fn plane_length(header: &[u8; HEADER_SIZE]) -> usize {
    two_bytes(header[17], header[18]) as usize
}

// How many bytes of data follow a job's header.
pub(crate) fn byte_count(header: &[u8; HEADER_SIZE]) -> usize {
    two_bytes(header[19], header[20]) as usize
}
