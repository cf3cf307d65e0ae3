//! Locks in a vector in table order, with reserved room.
ghost use Rattle.std.specs.Prelude.{◌≡◌, ◌<◌, ◌≤◌, ◌+◌, ◌++◌, ◌∷◌, [], insert, length, option_copied, vec_len, vec_capacity, IfOk, OnOk, OnErr};
ghost use Rattle.std.specs.List.{list_any, prefix_len};
ghost use Rattle.sql_base.specs.Locks.{covers, first_conflict, granted, released, InTableOrder};
ghost use Rattle.lock_tables.specs.LockTables.{AnswersGrant, is_before, lock_table_of};

use crate::faults::LockFault;
use crate::orders::{bars, compare, is_cover};
use crate::runs::{below, own};
use sql_base::{Lock, Mode, NoMemory, TxnName};
use std::alloc::Global;

/// A run of so many locks or fewer is looked through one by one, which is faster than to go on down.
const FEW: usize = 16;

/// The first lock that conflicts with the holder's lock of the prefix in the mode. It is sought on the way down to the
/// prefix, and then among the locks that begin with it.
pub fn first_bar<'a>(
    locks: &'a [Lock],
    holder: TxnName,
    prefix: &[u8],
    mode: Mode,
) -> Option<&'a Lock>
    requires { InTableOrder locks.now }
    ensures { option_copied result ≡ first_conflict locks.now holder prefix.now mode }
{
    let mut run = locks;
    for (depth, byte) in prefix.iter().enumerate() {
        if run.len() <= FEW {
            return first_in(run, holder, prefix, mode);
        }
        if let Some(bar) = first_in(own(run, depth), holder, prefix, mode) {
            return Some(bar);
        }
        run = below(run, depth, *byte);
    }
    first_in(run, holder, prefix, mode)
}

/// The first lock of a run that conflicts with the holder's lock of the prefix in the mode.
fn first_in<'a>(run: &'a [Lock], holder: TxnName, prefix: &[u8], mode: Mode) -> Option<&'a Lock>
    ensures { option_copied result ≡ first_conflict run.now holder prefix.now mode }
{
    for lock in run {
        if bars(lock, holder, prefix, mode) {
            return Some(lock);
        }
    }
    None
}

/// An own lock on the way down to the granule covers it.
fn is_covered(locks: &[Lock], wanted: &Lock) -> bool
    requires { InTableOrder locks.now }
    ensures { result ≡ list_any (λ own. covers own wanted.now) locks.now }
{
    let prefix = wanted.prefix.bytes();
    let mut run = locks;
    for (depth, byte) in prefix.iter().enumerate() {
        if run.len() <= FEW {
            return any_covers(run, wanted);
        }
        if any_covers(own(run, depth), wanted) {
            return true;
        }
        run = below(run, depth, *byte);
    }
    any_covers(own(run, prefix.len()), wanted)
}

fn any_covers(run: &[Lock], wanted: &Lock) -> bool
    ensures { result ≡ list_any (λ own. covers own wanted.now) run.now }
{
    run.iter().any(|own| is_cover(own, wanted))
}

/// How many locks stand before this one in table order.
fn place_of(locks: &[Lock], lock: &Lock) -> usize
    requires { InTableOrder locks.now }
    ensures place { result ≡ prefix_len (is_before lock.now) locks.now }
    ensures within { result ≤ length locks.now }
{
    locks.partition_point(|other| compare(other, lock).is_lt())
}

/// Grants a lock, unless another's lock conflicts with it. An own lock that covers it stands for it.
pub fn grant(locks: &mut Vec<Lock>, lock: Lock) -> Result<(), LockFault>
    requires { InTableOrder locks.old.items }
    ensures answer { AnswersGrant (lock_table_of locks.old) lock result }
    ensures ok { OnOk result (locks.new.items ≡ granted lock locks.old.items) }
    ensures err { OnErr result (locks.new.items ≡ locks.old.items) }
    ensures spare { (lock_table_of locks.old).spare ≤ (lock_table_of locks.new).spare + 1 }
{
    if let Some(bar) = first_bar(locks, lock.holder, lock.prefix.bytes(), lock.mode) {
        let at = place_of(locks, bar);
        return Err(LockFault::Conflict { at });
    }
    if is_covered(locks, &lock) {
        return Ok(());
    }
    let at = place_of(locks, &lock);
    match locks.insert(at, lock) {
        Ok(()) => Ok(()),
        Err(_) => Err(LockFault::NoMemory),
    }
}

/// Adds a lock at its place, for which there is room, unless an own lock covers it.
pub fn admit(locks: &mut Vec<Lock>, lock: Lock)
    requires order { InTableOrder locks.old.items }
    requires room { vec_len locks.old < vec_capacity locks.old }
    ensures items { locks.new.items ≡ granted lock locks.old.items }
    ensures spare { (lock_table_of locks.old).spare ≤ (lock_table_of locks.new).spare + 1 }
{
    if is_covered(locks, &lock) {
        return;
    }
    let place = place_of(locks, &lock);
    insert(locks, place, lock);
}

fn insert(locks: &mut Vec<Lock>, at: usize, lock: Lock)
    requires room { vec_len locks.old < vec_capacity locks.old }
    requires within { at ≤ vec_len locks.old }
    ensures items { locks.new.items ≡ insert locks.old.items at lock }
    ensures one { vec_len locks.new ≡ vec_len locks.old + 1 }
    ensures capacity { vec_capacity locks.new ≡ vec_capacity locks.old }
{
    let inserted = locks.insert(at, lock);
    prove!(inserted.is_ok());
}

/// Gives up the locks of a transaction.
pub fn release(locks: &mut Vec<Lock>, t: TxnName)
    ensures items { locks.new.items ≡ released t locks.old.items }
    ensures spare { (lock_table_of locks.old).spare ≤ (lock_table_of locks.new).spare }
{
    locks.retain(|lock| lock.holder != t);
}

pub fn copies(alloc: Global, locks: &[Lock]) -> Result<Vec<Lock>, NoMemory>
    ensures { IfOk result (λ copies. copies.items ≡ locks.now) }
{
    let mut copies = Vec::new(alloc);
    for lock in locks {
        append_copy(&mut copies, alloc, lock)?;
    }
    Ok(copies)
}

fn append_copy(copies: &mut Vec<Lock>, alloc: Global, lock: &Lock) -> Result<(), NoMemory>
    ensures { OnOk result (copies.new.items ≡ copies.old.items ++ lock.now ∷ []) }
{
    copies.push(lock.clone()?)?;
    Ok(())
}
