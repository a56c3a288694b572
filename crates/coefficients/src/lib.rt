// Document 01, "Dequantising" and "One subband": values, each a signed number, dequantised.
#![tactic(auto)]

mod factors;
pub mod quantiser;
pub mod reading;
pub mod values;
