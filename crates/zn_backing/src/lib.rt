//! The directory of a zoned device: its names, its text, how a new one is made, and a look at it.
#![tactic(auto)]

mod active;
mod calls;
mod error;
mod fresh;
mod kinds;
mod listed;
mod looks;
mod made;
mod names;
mod owned;
mod text;
mod whole;
mod zones;

pub use error::{CreateError, OpenError};
pub use fresh::create;
pub use kinds::{is_within, kind_of};
pub use listed::{contains, sync_all};
pub use looks::{geometry_in, no_extra};
pub use names::{offline_name, read_only_name, zone_name};
pub use owned::{DEVICE, is_marker_of, is_name_of};
pub use text::{device_text, read_text};
pub use whole::{Found, look};
pub use zones::zones_in;
