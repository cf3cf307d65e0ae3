//! The requester's side: how the statements of a session become requests, and the log of what came back.
#![tactic(auto)]

mod beginnings;
mod closings;
mod requesters;
mod sessions;
mod stages;
mod turning;
mod walking;

pub use beginnings::sessions_of;
pub use requesters::Requester;
pub use sessions::Session;
