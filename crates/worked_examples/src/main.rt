// Document 01, "Bench readings": "The program runs the rest", and document 02, requests Three and Four. Writes a line for each case: what it
// is, the status, the place, and the plane after it; for a number code by itself, the bit after it and the number; for slices, the planes of
// C1 and C2 in lines of their own. What is proved stands in specs/Examples.antt, proofs/WorkedExamples.antt and proofs/LowDelayExamples.antt.
#![tactic(auto)]

mod codes;
mod output;
mod samples;
mod sliced;
mod values;

use crate::codes::read_longest_codes;
use crate::samples::{synthesise_deeper, synthesise_greatest, synthesise_least};
use crate::sliced::{unpack_short_slices, unpack_two_slices};
use crate::values::{
    unpack_both_offsets, unpack_empty, unpack_extremes, unpack_indices, unpack_longest_headers,
    unpack_longest_values, unpack_predicted_extremes,
};
use std::io;

// Runs every case.
fn main(rt: HostRuntime) -> io::Result<()> {
    unpack_indices(&rt)?;
    unpack_both_offsets(&rt)?;
    read_longest_codes(&rt)?;
    unpack_longest_headers(&rt)?;
    unpack_longest_values(&rt)?;
    unpack_empty(&rt)?;
    unpack_extremes(&rt)?;
    unpack_predicted_extremes(&rt)?;
    synthesise_greatest(&rt)?;
    synthesise_least(&rt)?;
    synthesise_deeper(&rt)?;
    unpack_two_slices(&rt)?;
    unpack_short_slices(&rt)
}
