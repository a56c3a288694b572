// Document 01, "Lifting": the steps of a filter on every column and on every row of a picture in a plane.
#![tactic(auto)]

pub mod columns;
pub mod frame;
pub mod rows;
pub mod steps;
