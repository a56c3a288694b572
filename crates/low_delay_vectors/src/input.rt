// The header of a job of the input, every number big-endian.
use low_delay::parameters::LowDelay;
use slices::parameters::Picture;
use std::array;
use vector_io::two_bytes;

// How many bytes a job's header has.
pub(crate) const HEADER_SIZE: usize = 43;

// How many bytes of data a job has, and how many entries each of its planes.
#[derive(Clone, Copy)]
pub(crate) struct Lengths {
    pub bytes: usize,
    pub luma: usize,
    pub first: usize,
    pub second: usize,
}

// The parameters that a job's header gives: those of the picture, and the fraction.
pub(crate) fn parameters_of(header: &[u8; HEADER_SIZE]) -> LowDelay {
    LowDelay {
        picture: picture_of(header),
        numerator: u32::from_be_bytes([header[14], header[15], header[16], header[17]]),
        denominator: u32::from_be_bytes([header[18], header[19], header[20], header[21]]),
    }
}

// The lengths that a job's header gives.
pub(crate) fn lengths_of(header: &[u8; HEADER_SIZE]) -> Lengths {
    Lengths {
        bytes: two_bytes(header[41], header[42]) as usize,
        luma: two_bytes(header[35], header[36]) as usize,
        first: two_bytes(header[37], header[38]) as usize,
        second: two_bytes(header[39], header[40]) as usize,
    }
}

// The parameters of the picture: its sizes, depth, intra, the slices across and down, and the matrix, of a byte for each entry.
fn picture_of(header: &[u8; HEADER_SIZE]) -> Picture {
    Picture {
        luma_width: two_bytes(header[0], header[1]),
        luma_height: two_bytes(header[2], header[3]),
        chroma_width: two_bytes(header[4], header[5]),
        chroma_height: two_bytes(header[6], header[7]),
        depth: u32::from(header[8]),
        intra: header[9] != 0,
        slices_across: two_bytes(header[10], header[11]),
        slices_down: two_bytes(header[12], header[13]),
        matrix: array::from_fn(|k| u32::from(header[22 + k])),
    }
}
