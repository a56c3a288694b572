// Document 01: what the unpacker and the transform share. Parameters, answers, sizes, subbands, and the checks behind refusals 1 to 5.
#![tactic(auto)]

pub mod checks;
pub mod parameters;
pub mod partition;
pub mod sizes;
pub mod subbands;
