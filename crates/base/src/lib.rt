// What the decoder's crates share: signed arithmetic, planes, and the format's statuses and limits.
#![tactic(auto)]

pub mod limits;
pub mod plane;
pub mod signed;
pub mod status;
