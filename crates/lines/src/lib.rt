// Lines of numbers: sums of taps, lifting a line by such sums, and the two halves of a row in a line buffer.
#![tactic(auto)]

pub mod buffers;
pub mod measures;
pub mod sums;
