//! What a session asks of a partition, and what the partition replies, as values and as bytes.
#![tactic(auto)]

mod faults;
mod fields;
pub mod laws;
mod messages;
mod reading;
mod replies;
mod requests;
mod writing;

pub use faults::BytesFault;
pub use fields::all_differ;
pub use messages::{
    Message, accept, address, decode_reply, decode_request, encode_reply, encode_request,
};
pub use replies::Reply;
pub use requests::{Ask, Envelope, Request};
