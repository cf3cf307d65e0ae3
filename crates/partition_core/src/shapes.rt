//! Whether what a request names fits the table and the partition.
ghost use Rattle.std.specs.Prelude.{◌≡◌, ◌&&◌, length, nat_eq, nat_lt, count_by};
ghost use Rattle.std.specs.List.{list_all, starts_with};
ghost use Rattle.sql_base.specs.Keys.{key_le};
ghost use Rattle.sql_base.specs.Rows.{key_width};
ghost use Rattle.sql_base.specs.Tables.{all_differ};
ghost use Rattle.partition_core.specs.Scaffold.Contents.{state_of, parts_of, IsFormed};
ghost use Rattle.partition_state.specs.Step.{is_key_here, is_shaped, are_columns_here};

use crate::contents::Contents;
use dp_messages::all_differ;
use sql_base::{Key, KeyRange, Prefix, TableDef};

impl Contents {
    /// Whether a key of the table lies in the partition.
    pub fn is_key_here(&self, key: &[u8]) -> bool
        requires { IsFormed (parts_of self.now) }
        ensures { result ≡ is_key_here (state_of (parts_of self.now)) key.now }
    {
        key.len() == self.width && part_of(self.firsts.items(), key) == self.place as usize
    }

    /// Whether the range lies in the partition, and under the granule.
    pub fn is_shaped(&self, range: &KeyRange, granule: &Prefix) -> bool
        requires { IsFormed (parts_of self.now) }
        ensures { result ≡ is_shaped (state_of (parts_of self.now)) range.now granule.now }
    {
        if !self.is_key_here(range.low.bytes()) {
            return false;
        }
        if !self.is_key_here(range.high.bytes()) {
            return false;
        }
        is_under(range, granule)
    }

    /// Whether the key lies in the partition, and the table has the columns.
    pub fn suits_key(&self, key: &[u8], columns: &[u8]) -> bool
        requires { IsFormed (parts_of self.now) }
        ensures { result ≡ (is_key_here (state_of (parts_of self.now)) key.now && are_columns_here (state_of (parts_of self.now)) columns.now) }
    {
        if self.is_key_here(key) {
            self.are_columns_here(columns)
        } else {
            false
        }
    }

    pub fn are_columns_here(&self, columns: &[u8]) -> bool
        ensures { result ≡ are_columns_here (state_of (parts_of self.now)) columns.now }
    {
        are_columns(self.table.table(), columns)
    }

    /// Whether a prefix has more bytes than a key.
    pub fn is_too_long(&self, prefix: &Prefix) -> bool
        requires { IsFormed (parts_of self.now) }
        ensures { result ≡ nat_lt (key_width self.now.table) (length prefix.now) }
    {
        self.width < prefix.bytes().len()
    }
}

/// The bounds in their order, both under the granule.
fn is_under(range: &KeyRange, granule: &Prefix) -> bool
    ensures { result ≡ (key_le range.now.low range.now.high && (starts_with nat_eq range.now.low granule.now && starts_with nat_eq range.now.high granule.now)) }
{
    let low = range.low.bytes();
    let high = range.high.bytes();
    low.cmp(high).is_le() && (low.starts_with(granule.bytes()) && high.starts_with(granule.bytes()))
}

/// Columns of the table, one at least and none twice.
fn are_columns(table: &TableDef, columns: &[u8]) -> bool
    ensures { result ≡ (nat_lt 0 (length columns.now) && (list_all (λ c. nat_lt c (length table.now.columns)) columns.now && all_differ nat_eq columns.now)) }
{
    let count = table.columns.items().len();
    !columns.is_empty() && (are_below(columns, count) && all_differ(columns))
}

fn are_below(columns: &[u8], count: usize) -> bool
    ensures { result ≡ list_all (λ c. nat_lt c count) columns.now }
{
    columns.iter().all(|column| (*column as usize) < count)
}

/// The partition of a key: as many first keys as aren't above it.
fn part_of(firsts: &[Key], key: &[u8]) -> usize
    ensures { result ≡ count_by (λ first. key_le first key.now) firsts.now }
{
    let mut part = 0;
    for first in firsts {
        if first.bytes().cmp(key).is_le() {
            part += 1;
        }
    }
    part
}
