//! The line on standard error that says how a command ended.
ghost use Rattle.std.specs.Prelude.{◌≡◌, ◌++◌, IfOk, OnOk, codes, string_bytes};
ghost use Rattle.std.specs.Fmt.{decimal};
ghost use Rattle.nonstop_sql.specs.Lines.{fault_line, line_of, reason_name, status_line};

use crate::outcome::Outcome;
use itoa::Buffer;
use sql_base::NoMemory;
use statement_draft::Reason;
use statement_reader::ScriptFault;
use std::alloc::Global;

/// The line that tells an outcome, without its end: the place and the reason of a fault, or what the status means.
pub fn line_of(alloc: Global, outcome: &Outcome) -> Result<String, NoMemory>
    ensures { IfOk result (λ line. string_bytes line ≡ line_of outcome.now.status outcome.now.fault) }
{
    match outcome.fault {
        Some(fault) => fault_line(alloc, fault),
        None => Ok(String::from_str(alloc, status_line(outcome.status))?),
    }
}

fn status_line(status: u8) -> &'static str
    ensures { result.now ≡ status_line status }
{
    match status {
        0 => "nsq: done",
        2 => "nsq: bad command line",
        3 => "nsq: read failed",
        4 => "nsq: write failed",
        _ => "nsq: out of memory",
    }
}

fn fault_line(alloc: Global, fault: ScriptFault) -> Result<String, NoMemory>
    ensures { IfOk result (λ line. string_bytes line ≡ fault_line fault) }
{
    let mut line = String::from_str(alloc, "nsq: line ")?;
    put_number(&mut line, fault.line)?;
    line.push_str(" column ")?;
    put_number(&mut line, fault.column)?;
    line.push_str(": ")?;
    line.push_str(reason_name(fault.reason))?;
    Ok(line)
}

fn put_number(line: &mut String, number: u32) -> Result<(), NoMemory>
    ensures { OnOk result (string_bytes line.new ≡ string_bytes line.old ++ decimal number) }
{
    let mut digits = Buffer::new();
    line.push_str(digits.format(number))?;
    Ok(())
}

fn reason_name(reason: Reason) -> &'static str
    ensures { result.now ≡ reason_name reason }
{
    match reason {
        Reason::TooLarge => "TooLarge",
        Reason::BadByte => "BadByte",
        Reason::OpenText => "OpenText",
        Reason::NumberTooWide => "NumberTooWide",
        Reason::TextTooLong => "TextTooLong",
        Reason::Unexpected => "Unexpected",
        Reason::UnknownName => "UnknownName",
        Reason::Repeated => "Repeated",
        Reason::WrongType => "WrongType",
        Reason::OverLimit => "OverLimit",
        Reason::NotRising => "NotRising",
        Reason::CheckFails => "CheckFails",
    }
}
