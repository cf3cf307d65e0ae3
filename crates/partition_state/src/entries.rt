//! One request of a history.
use dp_messages::{Reply, Request};

/// A request that was served as new, and its reply.
#[derive(Debug, Drop)]
pub struct Entry {
    pub opener: u32,
    pub sync: u64,
    pub request: Request,
    pub reply: Reply,
}
