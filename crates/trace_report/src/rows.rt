//! Numbers in lines of a width.
ghost use Rattle.std.specs.Prelude.{◌≡◌, ◌<◌, ◌-◌, ◌^◌, ◌++◌, OnOk, OnErr};
ghost use Rattle.std.specs.Io.{StartsWith};
ghost use Rattle.trace_report.specs.Rows.{rows_text, separator};

use itoa::Buffer;
use outside::NoMemory;
use std::alloc::AllocError;

/// What follows the number at a place, counted from 0: a line break at the end of a line, else a blank.
fn separator(width: usize, place: usize) -> u8
    requires width { 0 < width }
    requires place { place < 2 ^ 64 - 1 }
    ensures { result ≡ separator width place }
{
    if (place + 1) % width == 0 {
        b'\n'
    } else {
        b' '
    }
}

/// Appends the numbers in lines of `width`. After `NoMemory` a part of them may stand there.
pub fn put_rows(out: &mut Vec<u8>, width: usize, numbers: &[u64]) -> Result<(), NoMemory>
    requires { 0 < width }
    ensures ok { OnOk result (out.new.items ≡ out.old.items ++ rows_text width numbers.now) }
    ensures err { OnErr result (StartsWith out.new.items out.old.items) }
{
    let mut digits = Buffer::new();
    let mut place = 0;
    for number in numbers {
        out.extend_from_slice(digits.format(*number).as_bytes())?;
        out.push(separator(width, place)).map_err(AllocError::from)?;
        place += 1;
    }
    Ok(())
}
