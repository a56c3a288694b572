// Document 02, request Four: the parameters of a picture in low delay slices.
use slices::parameters::Picture;

// A picture, and the fraction that gives the bytes of its slices. Any value can be passed; the job refuses what is out of range.
#[derive(Clone, Copy)]
pub struct LowDelay {
    pub picture: Picture,
    pub numerator: u32,
    pub denominator: u32,
}
