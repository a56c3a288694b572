// Document 01, "What the decoder covers": how large the numbers of a component may be. The least is 1 for sizes and codeblock counts, and 0 for
// the rest.
pub const SIZE_MOST: u32 = 4096;

pub const DEPTH_MOST: u32 = 4;

pub const WAVELET_MOST: u32 = 6;

pub const CODEBLOCKS_MOST: u32 = 255;

pub const QUANTISER_MOST: u32 = 115;

// "Number codes": how many data bits a code may have.
pub const DATA_BITS_MOST: u32 = 31;

// Document 02, request Four: slices across or down, and each number of the fraction that gives their bytes, of which the least is 1; and a
// used entry of the quantisation matrix.
pub const SLICES_MOST: u32 = 255;

pub const FRACTION_MOST: u32 = 65535;

pub const MATRIX_MOST: u32 = 127;
