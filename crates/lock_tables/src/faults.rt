//! Why a lock is refused.
/// Why a lock isn't granted.
#[derive(Clone, Copy, Debug, PartialEq, Eq)]
pub enum LockFault {
    /// The lock at this place, counted from 0 in table order, conflicts with it, and none before it does.
    Conflict { at: usize },
    NoMemory,
}
