//! A session: carries out the lines of a script on a zoned device, and writes their replies.
#![tactic(auto)]

mod calls;
mod formats;
mod held;
mod injecting;
pub mod laws;
mod replies;
mod reporting;
mod room;
mod session;

pub use session::{Session, SessionFail};
