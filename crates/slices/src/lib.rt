// Document 02, request Four: what every kind of slice has: its rectangles of the subbands, and its parts, read into three planes.
#![tactic(auto)]

pub mod areas;
pub mod parameters;
pub mod parts;
pub mod stores;
pub mod tables;
