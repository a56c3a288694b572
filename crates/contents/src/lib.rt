// Document 01, "A recording": the contents of a recording, and the numbers of its file.
#![tactic(auto)]

pub mod bytes;
pub mod table;
