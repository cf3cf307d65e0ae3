//! A live transaction.
use sql_base::TxnName;

/// A live transaction, with its floor once it has prepared.
#[derive(Clone, Copy, Debug)]
pub struct Live {
    pub name: TxnName,
    pub floor: Option<u64>,
}
