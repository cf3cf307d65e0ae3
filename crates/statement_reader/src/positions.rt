//! Lines and columns.
ghost use Rattle.std.specs.Prelude.{◌≡◌, ◌+◌, ◌<◌, ◌≤◌, ◌^◌, length, min};
ghost use Rattle.statement_reader.specs.Positions.{line_number, column_of, fault_at};

use crate::faults::ScriptFault;
use statement_draft::Reason;

/// A place in a script. Lines count from 1 and end at LF, columns count bytes from 1.
#[derive(Clone, Copy, Debug, PartialEq, Eq)]
struct Position {
    line: u32,
    column: u32,
}

/// The place behind these bytes.
fn position_behind(before: &[u8]) -> Position
    requires { length before.now < 2 ^ 31 }
    ensures line { result.line ≡ line_number before.now (length before.now) }
    ensures column { result.column ≡ column_of before.now (length before.now) }
{
    let mut position = Position { line: 1, column: 1 };
    for byte in before {
        if *byte == b'\n' {
            position.line += 1;
            position.column = 1;
        } else {
            position.column += 1;
        }
    }
    position
}

/// The fault at a byte, or at the one that would follow the last.
pub fn fault_at(text: &[u8], at: usize, reason: Reason) -> ScriptFault
    requires { min at (length text.now) < 2 ^ 31 }
    ensures { result ≡ fault_at text.now at reason }
{
    let before = &text[..at.min(text.len())];
    let position = position_behind(before);
    ScriptFault {
        line: position.line,
        column: position.column,
        reason,
    }
}
