//! The files of a volume, what each shows, and what a recovery makes of it.
#![tactic(auto)]

mod inodes;
mod shown;
#[cfg(test)]
mod tests;

pub use inodes::Inodes;
pub use shown::{
    capacity, holds, is_shown_active, makes_read_only, mounted_shown, policy_row, recovered_shown,
    room, worse, worst, zone_room,
};
