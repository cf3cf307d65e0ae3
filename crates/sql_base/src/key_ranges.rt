//! Ranges of keys.
use crate::bytes::Key;

/// The keys from `low` to `high`, both among them.
#[derive(Clone, Debug, Drop)]
pub struct KeyRange {
    pub low: Key,
    pub high: Key,
}

/// Where a scan goes on: at a key, or just after it.
#[derive(Clone, Debug, Drop)]
pub enum Start {
    At(Key),
    After(Key),
}
