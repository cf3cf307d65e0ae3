//! What the rooms of nsq speak of: values and rows, keys and granules, tables, expressions, statements and scripts.
#![tactic(auto)]

mod bytes;
mod computing;
mod expressions;
mod faults;
mod granules;
mod key_ranges;
mod keys;
mod lists;
mod lock_names;
mod outcomes;
mod packing;
mod scripts;
mod statements;
mod tables;
mod unpacking;
mod values;

pub use bytes::{Code, Key, Name, Packed, Prefix, Text, is_printable};
pub use computing::{compare_texts, compute, holds};
pub use expressions::{ArithOp, CompareOp, Expr};
pub use faults::{Cause, EvalFault, Fault, NoMemory};
pub use granules::{common_length, common_prefix, overlaps};
pub use key_ranges::{KeyRange, Start};
pub use keys::{
    KeyFault, append_key_value, append_padded, encode_key, key_number, padded, row_key, width_of,
};
pub use lists::List;
pub use lock_names::{Access, Lock, Mode, TxnName};
pub use outcomes::{Abort, Given, Outcome};
pub use packing::pack;
pub use scripts::{Limits, Load, Script, Work};
pub use statements::{Assign, Statement};
pub use tables::{Column, ColumnKind, TableDef};
pub use unpacking::{UnpackFault, unpack};
pub use values::{Row, Value};
