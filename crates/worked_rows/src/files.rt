//! A file of blocks: its shape as records come and go, and the same calls on a plain sorted list.
use key_sequenced::{Cell, File};
use sql_base::{Key, List, NoMemory, Row, Start, TxnName, Value};
use std::alloc::Global;
use std::test::Fail;

fn key_of(alloc: Global, number: u32) -> Result<Key, NoMemory> {
    Ok(Key::from_vec(number.to_be_bytes().to_vec(alloc)?))
}

fn row_of(alloc: Global, number: i64) -> Result<Row, NoMemory> {
    let mut values = List::new(alloc);
    values.push(Value::Int(number))?;
    Ok(Row::from_values(values))
}

fn writer_of(session: u32) -> TxnName {
    TxnName {
        session,
        ordinal: 1,
    }
}

/// Loads the record of a number, unless it has one.
fn load(alloc: Global, file: &mut File, number: u32) -> Result<(), NoMemory> {
    let key = key_of(alloc, number)?;
    let row = row_of(alloc, number as i64)?;
    file.reserve(1)?;
    if file.find(key.bytes()).is_none() {
        file.load(key, row);
    }
    Ok(())
}

/// The records of the numbers 1 to 200, loaded in rising order.
fn loaded(alloc: Global) -> Result<File, NoMemory> {
    let mut file = File::new(alloc);
    for number in 1..201 {
        load(alloc, &mut file, number)?;
    }
    Ok(file)
}

#[test]
fn a_full_block_is_halved(rt: HostRuntime) -> Result<(), Fail> {
    let alloc = rt.alloc();
    let file = loaded(alloc)?;
    let shape = file.shape()?;
    assert_eq!(rt; shape.items(), [32, 32, 32, 32, 32, 40].as_slice());
    Ok(())
}

#[test]
fn an_empty_block_is_taken_out(rt: HostRuntime) -> Result<(), Fail> {
    let alloc = rt.alloc();
    let mut file = loaded(alloc)?;
    for number in 1..33 {
        let key = key_of(alloc, number)?;
        file.remove_now(key.bytes(), writer_of(1));
    }
    file.settle(writer_of(1));
    let shape = file.shape()?;
    assert_eq!(rt; shape.items(), [32, 32, 32, 32, 40].as_slice());
    let start = Start::At(key_of(alloc, 1)?);
    let wanted = key_of(alloc, 33)?;
    match file.next_after(&start) {
        Some(cell) => assert_eq!(rt; cell.key.bytes(), wanted.bytes()),
        None => return Err("no cell".into()),
    }
    Ok(())
}

/// One call of a file, by key number and session.
#[derive(Clone, Copy, Debug)]
enum Call {
    Load(u32),
    Put(u32, u32),
    Change(u32, u32),
    Remove(u32, u32),
    Restore(u32),
    Settle(u32),
}

/// A cell of the plain list: its key, the row now and before, and the session that writes it.
#[derive(Clone, Copy, Debug, PartialEq, Eq)]
struct Plain {
    key: u32,
    now: Option<i64>,
    was: Option<i64>,
    writer: Option<u32>,
}

impl Plain {
    /// The row that is left where the change is undone, or made good.
    fn kept(&self, undone: bool) -> Option<i64> {
        if undone { self.was } else { self.now }
    }
}

/// The cells of a plain file, in key order, looked through from the first.
#[derive(Drop)]
struct PlainFile {
    cells: Vec<Plain>,
}

impl PlainFile {
    /// Gives the cell of a key a row or none, where there is one, and says whether there is.
    fn rewrite(&mut self, key: u32, now: Option<i64>, session: u32) -> bool {
        for cell in self.cells.iter_mut() {
            if cell.key == key {
                if cell.writer.is_none() {
                    cell.was = cell.now;
                }
                cell.now = now;
                cell.writer = Some(session);
                return true;
            }
        }
        false
    }

    fn lay(&mut self, new: Plain) -> Result<(), NoMemory> {
        let at = self.cells.iter().filter(|cell| cell.key <= new.key).count();
        if at <= self.cells.len() {
            self.cells.insert(at, new)?;
        }
        Ok(())
    }

    /// Ends the changes of a session: what it undid or made good is left, with nothing pending.
    fn end(&mut self, session: u32, undone: bool) {
        self.cells.retain(|cell| cell.writer != Some(session) || cell.kept(undone).is_some());
        for cell in self.cells.iter_mut() {
            if cell.writer == Some(session) {
                cell.now = cell.kept(undone);
                cell.was = None;
                cell.writer = None;
            }
        }
    }

    fn make(&mut self, call: Call, row: i64) -> Result<(), NoMemory> {
        match call {
            Call::Load(key) => {
                if self.cells.iter().all(|cell| cell.key != key) {
                    self.lay(Plain {
                        key,
                        now: Some(key as i64),
                        was: None,
                        writer: None,
                    })?;
                }
            }
            Call::Put(key, session) => {
                if !self.rewrite(key, Some(row), session) {
                    self.lay(Plain {
                        key,
                        now: Some(row),
                        was: None,
                        writer: Some(session),
                    })?;
                }
            }
            Call::Change(key, session) => {
                self.rewrite(key, Some(row), session);
            }
            Call::Remove(key, session) => {
                self.rewrite(key, None, session);
            }
            Call::Restore(session) => self.end(session, true),
            Call::Settle(session) => self.end(session, false),
        }
        Ok(())
    }
}

fn make(alloc: Global, file: &mut File, call: Call, number: i64) -> Result<(), NoMemory> {
    match call {
        Call::Load(key) => load(alloc, file, key)?,
        Call::Put(key, session) => {
            let key = key_of(alloc, key)?;
            let row = row_of(alloc, number)?;
            file.reserve(1)?;
            file.put(key, row, writer_of(session));
        }
        Call::Change(key, session) => {
            let row = row_of(alloc, number)?;
            file.change(key_of(alloc, key)?.bytes(), row, writer_of(session));
        }
        Call::Remove(key, session) => {
            file.remove_now(key_of(alloc, key)?.bytes(), writer_of(session))
        }
        Call::Restore(session) => file.restore(writer_of(session)),
        Call::Settle(session) => file.settle(writer_of(session)),
    }
    Ok(())
}

/// The call that a number stands for: mostly records that come and change, by three sessions on 500 keys.
fn call_of(number: u32) -> Call {
    let key = number / 64 % 500;
    let session = number / 8 % 3;
    match number / 32768 % 16 {
        0 | 1 | 2 | 3 | 4 => Call::Load(key),
        5 | 6 | 7 | 8 => Call::Put(key, session),
        9 | 10 => Call::Change(key, session),
        11 | 12 | 13 => Call::Remove(key, session),
        14 => Call::Restore(session),
        _ => Call::Settle(session),
    }
}

fn number_in(row: &Option<Row>) -> Option<i64> {
    match row {
        Some(row) => match row.values().first() {
            Some(Value::Int(number)) => Some(*number),
            _ => None,
        },
        None => None,
    }
}

fn is_as(cell: &Cell, plain: &Plain) -> bool {
    cell.key.bytes() == plain.key.to_be_bytes().as_slice()
        && number_in(&cell.now) == plain.now
        && number_in(&cell.was) == plain.was
        && cell.writer.map(|writer| writer.session) == plain.writer
}

/// The two files have the same cells.
fn are_alike(file: &File, plain: &PlainFile) -> bool {
    let mut cells = file.cells();
    for wanted in &plain.cells {
        match cells.next() {
            Some(cell) => {
                if !is_as(cell, wanted) {
                    return false;
                }
            }
            None => return false,
        }
    }
    cells.next().is_none()
}

#[test]
fn blocks_do_what_a_plain_list_does(rt: HostRuntime) -> Result<(), Fail> {
    let alloc = rt.alloc();
    let mut file = File::new(alloc);
    let mut plain = PlainFile {
        cells: Vec::new(alloc),
    };
    let mut number: u32 = 1;
    for round in 0..3000u32 {
        number = number.wrapping_mul(1664525).wrapping_add(1013904223);
        let call = call_of(number);
        make(alloc, &mut file, call, round as i64)?;
        plain.make(call, round as i64)?;
        assert_eq!(rt; are_alike(&file, &plain), true, "{round} {call:?}");
    }
    // They were split more than once.
    assert!(rt; file.shape()?.items().len() > 3);
    Ok(())
}
