// Document 01, "Number codes": interleaved exp-Golomb codes.
#![tactic(auto)]

pub mod bits;
pub mod codes;
