//! What a file and a directory may be after a stop of the host, which directory stands for which zoned device, and laws
//! over that. The definitions stand in `specs/`.
#![tactic(auto)]

pub mod cases;
pub mod device_cases;
pub mod device_laws;
pub mod laws;
mod numbers;

pub use numbers::{GREATEST_NUMBER, Geometry, LONGEST_TEXT};
