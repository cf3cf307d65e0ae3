//! What is asked of a partition of t (k INT, v INT, PRIMARY KEY (k)), with the codes of predicates and SET lists.
use dp_messages::Ask;
use sql_base::{Access, Code, Key, KeyRange, List, Mode, NoMemory, Packed, Prefix};
use std::alloc::Global;

/// What is asked. A number is that of a key, and all is asked under REPEATABLE where no access is told.
#[derive(Clone, Copy)]
pub enum Deed {
    /// Reads all records.
    Read(Access),
    /// Reads `k >= 2`.
    ReadFromTwo,
    /// Reads by a filter whose code has a byte too many.
    ReadByBadCode,
    /// Reads from the greatest key to the least one.
    ReadBackwards,
    /// Adds 1 to the value at a key.
    Add(u8),
    /// Adds 1 to each value.
    AddToAll(Access),
    /// Takes 30 from each value.
    TakeFromAll,
    Delete(u8),
    /// Goes on with the subset of this number after a key.
    GoOn(u32, u8),
    ReadKey(u8),
    /// Inserts a key with a value.
    Insert(u8, u8),
    /// Inserts a row without its last byte.
    InsertShort,
    /// Locks the whole table.
    Lock(Mode),
    Prepare,
    Commit(u64),
    Undo,
}

/// The key of a number.
pub const fn key_bytes(number: u8) -> [u8; 8] {
    [0x80, 0, 0, 0, 0, 0, 0, number]
}

fn key_of(alloc: Global, number: u8) -> Result<Key, NoMemory> {
    Ok(Key::from_vec(key_bytes(number).to_vec(alloc)?))
}

/// The keys from the first bytes to the others.
fn range_of(alloc: Global, low: [u8; 8], high: [u8; 8]) -> Result<KeyRange, NoMemory> {
    Ok(KeyRange {
        low: Key::from_vec(low.to_vec(alloc)?),
        high: Key::from_vec(high.to_vec(alloc)?),
    })
}

fn at_key(alloc: Global, number: u8) -> Result<KeyRange, NoMemory> {
    range_of(alloc, key_bytes(number), key_bytes(number))
}

fn all_keys(alloc: Global) -> Result<KeyRange, NoMemory> {
    range_of(alloc, [0; 8], [0xff; 8])
}

fn code(alloc: Global, bytes: &[u8]) -> Result<Code, NoMemory> {
    Ok(Code::from_vec(bytes.to_vec(alloc)?))
}

/// The code of `k = number`.
fn at(alloc: Global, number: u8) -> Result<Option<Code>, NoMemory> {
    Ok(Some(code(alloc, &[3, 0, 1, 0, 0, 0, 0, 0, 0, 0, number, 0x20])?))
}

/// The code of `v = v + 1`.
fn adding(alloc: Global) -> Result<Code, NoMemory> {
    code(alloc, &[1, 1, 0, 12, 3, 1, 1, 0, 0, 0, 0, 0, 0, 0, 1, 0x10])
}

/// The code of `v = v - 30`.
fn taking(alloc: Global) -> Result<Code, NoMemory> {
    code(
        alloc,
        &[1, 1, 0, 12, 3, 1, 1, 0, 0, 0, 0, 0, 0, 0, 30, 0x11],
    )
}

fn prefix_of(alloc: Global, bytes: &[u8]) -> Result<Prefix, NoMemory> {
    Ok(Prefix::from_vec(bytes.to_vec(alloc)?))
}

/// Reads both columns of a range whose bounds have no first byte in common.
fn read(
    alloc: Global,
    access: Access,
    range: KeyRange,
    filter: Option<Code>,
) -> Result<Ask, NoMemory> {
    Ok(Ask::BeginRead {
        access,
        granule: prefix_of(alloc, b"")?,
        range,
        filter,
        columns: List::from_vec([0, 1].to_vec(alloc)?),
    })
}

/// Reads the first column of all records.
pub fn read_keys(alloc: Global) -> Result<Ask, NoMemory> {
    Ok(Ask::BeginRead {
        access: Access::Browse,
        granule: prefix_of(alloc, b"")?,
        range: all_keys(alloc)?,
        filter: None,
        columns: List::from_vec([0].to_vec(alloc)?),
    })
}

fn read_from_two(alloc: Global) -> Result<Ask, NoMemory> {
    let range = range_of(alloc, key_bytes(2), [0xff; 8])?;
    let filter = code(alloc, &[3, 0, 1, 0, 0, 0, 0, 0, 0, 0, 2, 0x25])?;
    read(alloc, Access::Repeatable, range, Some(filter))
}

fn read_by_bad_code(alloc: Global) -> Result<Ask, NoMemory> {
    let filter = code(alloc, &[3, 0, 1, 0, 0, 0, 0, 0, 0, 0, 2, 0x25, 0])?;
    let range = all_keys(alloc)?;
    read(alloc, Access::Repeatable, range, Some(filter))
}

fn read_backwards(alloc: Global) -> Result<Ask, NoMemory> {
    let range = range_of(alloc, [0xff; 8], [0; 8])?;
    read(alloc, Access::Repeatable, range, None)
}

fn add(alloc: Global, number: u8) -> Result<Ask, NoMemory> {
    Ok(Ask::BeginUpdate {
        access: Access::Repeatable,
        granule: prefix_of(alloc, &key_bytes(number))?,
        range: at_key(alloc, number)?,
        filter: at(alloc, number)?,
        sets: adding(alloc)?,
    })
}

fn update_all(alloc: Global, access: Access, sets: Code) -> Result<Ask, NoMemory> {
    Ok(Ask::BeginUpdate {
        access,
        granule: prefix_of(alloc, b"")?,
        range: all_keys(alloc)?,
        filter: None,
        sets,
    })
}

fn delete(alloc: Global, number: u8) -> Result<Ask, NoMemory> {
    Ok(Ask::BeginDelete {
        access: Access::Repeatable,
        granule: prefix_of(alloc, &key_bytes(number))?,
        range: at_key(alloc, number)?,
        filter: at(alloc, number)?,
    })
}

fn read_key(alloc: Global, number: u8) -> Result<Ask, NoMemory> {
    Ok(Ask::ReadKey {
        access: Access::Repeatable,
        key: key_of(alloc, number)?,
        filter: None,
        columns: List::from_vec([0, 1].to_vec(alloc)?),
    })
}

fn insert(alloc: Global, row: &[u8]) -> Result<Ask, NoMemory> {
    Ok(Ask::Insert {
        row: Packed::from_vec(row.to_vec(alloc)?),
    })
}

/// What the deed asks.
pub fn ask_of(alloc: Global, deed: Deed) -> Result<Ask, NoMemory> {
    match deed {
        Deed::Read(access) => read(alloc, access, all_keys(alloc)?, None),
        Deed::ReadFromTwo => read_from_two(alloc),
        Deed::ReadByBadCode => read_by_bad_code(alloc),
        Deed::ReadBackwards => read_backwards(alloc),
        Deed::Add(number) => add(alloc, number),
        Deed::AddToAll(access) => update_all(alloc, access, adding(alloc)?),
        Deed::TakeFromAll => update_all(alloc, Access::Repeatable, taking(alloc)?),
        Deed::Delete(number) => delete(alloc, number),
        Deed::GoOn(subset, number) => Ok(Ask::Continue {
            subset,
            last: key_of(alloc, number)?,
        }),
        Deed::ReadKey(number) => read_key(alloc, number),
        Deed::Insert(key, value) => insert(
            alloc,
            &[0, 0, 0, 0, 0, 0, 0, key, 0, 0, 0, 0, 0, 0, 0, value],
        ),
        Deed::InsertShort => insert(alloc, &[0, 0, 0, 0, 0, 0, 0, 9, 0, 0, 0, 0, 0, 0, 0]),
        Deed::Lock(mode) => Ok(Ask::LockGranule {
            prefix: prefix_of(alloc, b"")?,
            mode,
        }),
        Deed::Prepare => Ok(Ask::Prepare),
        Deed::Commit(stamp) => Ok(Ask::EndCommit { stamp }),
        Deed::Undo => Ok(Ask::EndUndo),
    }
}
