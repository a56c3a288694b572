// A level swept once: the column steps of a filter follow each other over the pairs of rows of a picture, and each pair's rows are filtered as soon as
// its columns are.
#![tactic(auto)]

pub mod bands;
pub mod gaps;
pub mod level;
pub mod rows;
pub mod turns;
