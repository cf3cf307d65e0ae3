//! What a statement asks of partitions.
use dp_messages::Ask;
use sql_base::List;

/// A request of one partition. The partitions of all tables count from 0.
#[derive(Debug, Drop)]
pub struct Sent {
    pub part: u32,
    pub ask: Ask,
}

/// What a statement asks, in rising partitions.
#[derive(Debug, Drop)]
pub enum Plan {
    /// A subset in each of these partitions, begun by this request, which goes on after each redrive.
    Subsets(List<Sent>),
    /// These requests.
    Singles(List<Sent>),
}
