//! Faults, and which of them counts.
ghost use Rattle.std.specs.Prelude.{◌≡◌};
ghost use Rattle.statement_draft.specs.Faults.{number, stands_before, sooner, noted, noted_as};

/// Why bytes are no script. Reasons are numbered from 1 in this order.
#[derive(Clone, Copy, Debug, PartialEq, Eq)]
pub enum Reason {
    TooLarge,
    BadByte,
    OpenText,
    NumberTooWide,
    TextTooLong,
    Unexpected,
    UnknownName,
    Repeated,
    WrongType,
    OverLimit,
    NotRising,
    CheckFails,
}

/// A fault of the word or the end at this byte, counted from 0.
#[derive(Clone, Copy, Debug, PartialEq, Eq)]
pub struct Fault {
    pub at: u32,
    pub reason: Reason,
}

fn number(reason: Reason) -> u8
    ensures { result ≡ number reason }
{
    match reason {
        Reason::TooLarge => 1,
        Reason::BadByte => 2,
        Reason::OpenText => 3,
        Reason::NumberTooWide => 4,
        Reason::TextTooLong => 5,
        Reason::Unexpected => 6,
        Reason::UnknownName => 7,
        Reason::Repeated => 8,
        Reason::WrongType => 9,
        Reason::OverLimit => 10,
        Reason::NotRising => 11,
        Reason::CheckFails => 12,
    }
}

fn stands_before(a: Fault, b: Fault) -> bool
    ensures { result ≡ stands_before a b }
{
    a.at < b.at || a.at == b.at && number(a.reason) <= number(b.reason)
}

/// The one of two faults that counts.
pub fn sooner(a: Option<Fault>, b: Option<Fault>) -> Option<Fault>
    ensures { result ≡ sooner a b }
{
    match (a, b) {
        (None, b) => b,
        (Some(a), None) => Some(a),
        (Some(a), Some(b)) => Some(if stands_before(a, b) { a } else { b }),
    }
}

/// The first fault, with one more where it holds.
pub fn noted(holds: bool, reason: Reason, at: u32, first: Option<Fault>) -> Option<Fault>
    ensures { result ≡ noted holds reason at first }
{
    if holds {
        return sooner(first, Some(Fault { at, reason }));
    }
    first
}

/// The first fault, with one more where there is a reason.
pub fn noted_as(reason: Option<Reason>, at: u32, first: Option<Fault>) -> Option<Fault>
    ensures { result ≡ noted_as reason at first }
{
    match reason {
        Some(reason) => noted(true, reason, at, first),
        None => first,
    }
}
