//! What sequential files hold after losses of power, over whole scripts: laws of the definitions below, and no code.
//! The statements stand in `specs/`.
#![tactic(auto)]

pub mod cases;
pub mod laws;
