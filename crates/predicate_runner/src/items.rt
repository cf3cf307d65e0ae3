//! What an expression gives on a row.

/// What an expression gives.
#[derive(Clone, Copy, Debug)]
pub enum Item<'a> {
    Number(i64),
    Text(&'a [u8]),
    Truth(bool),
}
