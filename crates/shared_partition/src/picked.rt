//! What an opener finds that asks for a reply.

/// What there is for an opener that asks for the reply to a sync.
#[derive(Debug, Drop)]
pub enum Picked {
    /// The bytes of the reply to just this sync.
    Reply(Vec<u8>),
    /// The sync has not been served yet.
    Pending,
    /// A later sync of the opener has been served.
    Passed,
    /// Memory was short for the opener's last sync, which is this one or a later one.
    Starved,
    /// Memory is short for the bytes.
    NoMemory,
}
