//! A driver that takes one action after the other, as a list of choices says.
#![tactic(auto)]

mod actions;
mod choosing;
mod driver;
mod ending;
mod paths;
mod processes;
mod seats;
mod sessions;
mod worlds;

pub use driver::drive_with;
pub use sessions::drive;
