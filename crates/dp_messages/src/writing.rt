//! Requests and replies, written as bytes.

ghost use Rattle.std.specs.Prelude.{◌≡◌, ◌++◌, ◌∷◌, [], OnOk, IfSome};
ghost use Rattle.std.specs.Int.{w16, to_be_bytes};
ghost use Rattle.sql_base.specs.Codes.{counted};
ghost use Rattle.dp_messages.specs.Spelling.{access_byte, ask_bytes, begin_bytes, cause_byte, eight, fault_bytes, four, lock_bytes, mode_byte, optional, reply_bytes, request_bytes, rows_bytes, sized, AreRowBytes, IsAsk, IsEnvelope, IsLock, IsLong, IsReply, IsShort};

use crate::replies::Reply;
use crate::requests::{Ask, Envelope};
use byteorder::{BigEndian, ByteOrder};
use sql_base::{Access, Cause, Code, Fault, KeyRange, Lock, Mode, NoMemory, Packed, Prefix};

fn put(out: &mut Vec<u8>, byte: u8) -> Result<(), NoMemory>
    ensures { OnOk result (out.new.items ≡ out.old.items ++ byte ∷ []) }
{
    out.push(byte)?;
    Ok(())
}

fn put_four(out: &mut Vec<u8>, number: u32) -> Result<(), NoMemory>
    ensures { OnOk result (out.new.items ≡ out.old.items ++ four number) }
{
    let mut field = [0; 4];
    BigEndian::write_u32(&mut field, number);
    out.extend_from_slice(&field)?;
    Ok(())
}

fn put_two(out: &mut Vec<u8>, number: u16) -> Result<(), NoMemory>
    ensures { OnOk result (out.new.items ≡ out.old.items ++ to_be_bytes w16 number) }
{
    let mut field = [0; 2];
    BigEndian::write_u16(&mut field, number);
    out.extend_from_slice(&field)?;
    Ok(())
}

fn put_eight(out: &mut Vec<u8>, number: u64) -> Result<(), NoMemory>
    ensures { OnOk result (out.new.items ≡ out.old.items ++ eight number) }
{
    let mut field = [0; 8];
    BigEndian::write_u64(&mut field, number);
    out.extend_from_slice(&field)?;
    Ok(())
}

fn put_sized(out: &mut Vec<u8>, bytes: &[u8]) -> Result<(), NoMemory>
    requires { IsShort bytes.now }
    ensures { OnOk result (out.new.items ≡ out.old.items ++ sized bytes.now) }
{
    out.push(bytes.len() as u8)?;
    out.extend_from_slice(bytes)?;
    Ok(())
}

fn put_counted(out: &mut Vec<u8>, bytes: &[u8]) -> Result<(), NoMemory>
    requires { IsLong bytes.now }
    ensures { OnOk result (out.new.items ≡ out.old.items ++ counted bytes.now) }
{
    put_two(out, bytes.len() as u16)?;
    out.extend_from_slice(bytes)?;
    Ok(())
}

fn put_optional(out: &mut Vec<u8>, code: &Option<Code>) -> Result<(), NoMemory>
    requires { IfSome code.now IsLong }
    ensures { OnOk result (out.new.items ≡ out.old.items ++ optional code.now) }
{
    match code {
        None => put(out, 0)?,
        Some(code) => {
            put(out, 1)?;
            put_counted(out, code.bytes())?;
        }
    }
    Ok(())
}

fn put_rows(out: &mut Vec<u8>, rows: &[Packed]) -> Result<(), NoMemory>
    requires { AreRowBytes rows.now }
    ensures { OnOk result (out.new.items ≡ out.old.items ++ rows_bytes rows.now) }
{
    put_two(out, rows.len() as u16)?;
    for row in rows {
        put_counted(out, row.bytes())?;
    }
    Ok(())
}

fn byte_of_access(access: Access) -> u8
    ensures { result ≡ access_byte access }
{
    match access {
        Access::Browse => 1,
        Access::Stable => 2,
        Access::Repeatable => 3,
    }
}

fn byte_of_mode(mode: Mode) -> u8
    ensures { result ≡ mode_byte mode }
{
    match mode {
        Mode::S => 1,
        Mode::X => 2,
    }
}

fn byte_of_cause(cause: Cause) -> u8
    ensures { result ≡ cause_byte cause }
{
    match cause {
        Cause::Visits => 1,
        Cause::Lock => 2,
        Cause::Fault => 3,
        Cause::Buffer => 4,
    }
}

fn put_fault(out: &mut Vec<u8>, fault: Fault) -> Result<(), NoMemory>
    ensures { OnOk result (out.new.items ≡ out.old.items ++ fault_bytes fault) }
{
    match fault {
        Fault::Overflow => put(out, 1)?,
        Fault::ZeroDivide => put(out, 2)?,
        Fault::CheckFailed { number } => {
            put(out, 3)?;
            put_four(out, number)?;
        }
    }
    Ok(())
}

fn put_lock(out: &mut Vec<u8>, lock: &Lock) -> Result<(), NoMemory>
    requires { IsLock lock.now }
    ensures { OnOk result (out.new.items ≡ out.old.items ++ lock_bytes lock.now) }
{
    put_four(out, lock.holder.session)?;
    put_four(out, lock.holder.ordinal)?;
    put_sized(out, lock.prefix.bytes())?;
    put(out, byte_of_mode(lock.mode))
}

// The kind of a subset's first request, and the fields that each of them has.
fn put_begin(
    out: &mut Vec<u8>,
    kind: u8,
    access: Access,
    granule: &Prefix,
    range: &KeyRange,
    filter: &Option<Code>,
) -> Result<(), NoMemory>
    requires granule { IsShort granule.now }
    requires low { IsShort range.now.low }
    requires high { IsShort range.now.high }
    requires filter { IfSome filter.now IsLong }
    ensures { OnOk result (out.new.items ≡ out.old.items ++ kind ∷ begin_bytes access granule.now range.now filter.now) }
{
    put(out, kind)?;
    put(out, byte_of_access(access))?;
    put_sized(out, granule.bytes())?;
    put_sized(out, range.low.bytes())?;
    put_sized(out, range.high.bytes())?;
    put_optional(out, filter)
}

fn put_ask(out: &mut Vec<u8>, ask: &Ask) -> Result<(), NoMemory>
    requires { IsAsk ask.now }
    ensures { OnOk result (out.new.items ≡ out.old.items ++ ask_bytes ask.now) }
{
    match ask {
        Ask::BeginRead {
            access,
            granule,
            range,
            filter,
            columns,
        } => {
            put_begin(out, 1, *access, granule, range, filter)?;
            put_sized(out, columns.items())
        }
        Ask::BeginUpdate {
            access,
            granule,
            range,
            filter,
            sets,
        } => {
            put_begin(out, 2, *access, granule, range, filter)?;
            put_counted(out, sets.bytes())
        }
        Ask::BeginDelete {
            access,
            granule,
            range,
            filter,
        } => put_begin(out, 3, *access, granule, range, filter),
        Ask::Continue { subset, last } => {
            put(out, 4)?;
            put_four(out, *subset)?;
            put_sized(out, last.bytes())
        }
        Ask::ReadKey {
            access,
            key,
            filter,
            columns,
        } => {
            put(out, 5)?;
            put(out, byte_of_access(*access))?;
            put_sized(out, key.bytes())?;
            put_optional(out, filter)?;
            put_sized(out, columns.items())
        }
        Ask::Insert { row } => {
            put(out, 6)?;
            put_counted(out, row.bytes())
        }
        Ask::LockGranule { prefix, mode } => {
            put(out, 7)?;
            put_sized(out, prefix.bytes())?;
            put(out, byte_of_mode(*mode))
        }
        Ask::Prepare => put(out, 8),
        Ask::EndCommit { stamp } => {
            put(out, 9)?;
            put_eight(out, *stamp)
        }
        Ask::EndUndo => put(out, 10),
    }
}

pub fn put_envelope(out: &mut Vec<u8>, envelope: &Envelope) -> Result<(), NoMemory>
    requires { IsEnvelope envelope.now }
    ensures { OnOk result (out.new.items ≡ out.old.items ++ request_bytes envelope.now) }
{
    put_four(out, envelope.opener)?;
    put_eight(out, envelope.sync)?;
    put_four(out, envelope.request.ordinal)?;
    put_ask(out, &envelope.request.ask)
}

pub fn put_reply(out: &mut Vec<u8>, reply: &Reply) -> Result<(), NoMemory>
    requires { IsReply reply.now }
    ensures { OnOk result (out.new.items ≡ out.old.items ++ reply_bytes reply.now) }
{
    match reply {
        Reply::Ended { rows, changed } => {
            put(out, 1)?;
            put_rows(out, rows.items())?;
            put_four(out, *changed)
        }
        Reply::Redrive {
            subset,
            last,
            cause,
            rows,
            changed,
        } => {
            put(out, 2)?;
            put_four(out, *subset)?;
            put_sized(out, last.bytes())?;
            put(out, byte_of_cause(*cause))?;
            put_rows(out, rows.items())?;
            put_four(out, *changed)
        }
        Reply::Locked(lock) => {
            put(out, 3)?;
            put_lock(out, lock)
        }
        Reply::Failed { key, fault } => {
            put(out, 4)?;
            put_sized(out, key.bytes())?;
            put_fault(out, *fault)
        }
        Reply::Row(row) => {
            put(out, 5)?;
            put_counted(out, row.bytes())
        }
        Reply::NoRow => put(out, 6),
        Reply::Done => put(out, 7),
        Reply::Floor(floor) => {
            put(out, 8)?;
            put_eight(out, *floor)
        }
        Reply::DuplicateKey { key } => {
            put(out, 9)?;
            put_sized(out, key.bytes())
        }
        Reply::AfterEnd { ended } => {
            put(out, 10)?;
            put_four(out, *ended)
        }
        Reply::AfterPrepare { floor } => {
            put(out, 11)?;
            put_eight(out, *floor)
        }
        Reply::StillLive { ordinal } => {
            put(out, 12)?;
            put_four(out, *ordinal)
        }
        Reply::NotKnown => put(out, 13),
        Reply::NotPrepared => put(out, 14),
        Reply::StampLow { floor } => {
            put(out, 15)?;
            put_eight(out, *floor)
        }
        Reply::NoSubset => put(out, 16),
        Reply::WrongKey { kept } => {
            put(out, 17)?;
            put_sized(out, kept.bytes())
        }
        Reply::BadCode => put(out, 18),
        Reply::BadShape => put(out, 19),
        Reply::TooManySubsets => put(out, 20),
    }
}
