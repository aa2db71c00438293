//! The sheet, written into the caller's buffer.
#![tactic(auto)]

ghost use Rattle.std.specs.Prelude.{◌≡◌, ◌<◌, ◌≤◌, length, MatchOption};
ghost use Rattle.sheet.specs.Sheets.{sheet, Sheeted, SheetLength, SheetInjective};
ghost use Rattle.sheet.specs.Longest.{SheetLongest};
ghost use Rattle.sheet.specs.Writing.{overwritten};

use gates::Mark;
use section::Section;

mod section;

/// The length of the longest sheet of fewer than a hundred inputs and fewer than a hundred gates.
pub const LONGEST: usize = 1565;

/// Writes the sheet and answers its length.
/// Nothing, and no byte is written, where the buffer is shorter, or there are not two marks for each of at most 512 signals.
pub fn write_sheet(
    inputs: usize,
    gates: usize,
    firsts: &[Mark],
    seconds: &[Mark],
    buffer: &mut [u8],
) -> Option<usize>
    ensures { MatchOption result
        ((Sheeted inputs gates firsts.now seconds.now → length buffer.old < length (sheet inputs gates firsts.now seconds.now)) × (buffer.new ≡ buffer.old))
        (λ n. Sheeted inputs gates firsts.now seconds.now
        × (n ≡ length (sheet inputs gates firsts.now seconds.now))
        × (n ≤ length buffer.old)
        × (buffer.new ≡ overwritten (sheet inputs gates firsts.now seconds.now) buffer.old)) }
{
    let size = firsts.len();
    if size > 512 || seconds.len() != size || inputs > size || gates > size - inputs {
        return None;
    }
    let core = inputs + gates;
    let input_part = Section::new(b"inputs ", &firsts[..inputs], &seconds[..inputs]);
    let gate_part = Section::new(b"gates ", &firsts[inputs..core], &seconds[inputs..core]);
    let wire_part = Section::new(b"wires ", &firsts[core..], &seconds[core..]);
    let length = input_part.len() + gate_part.len() + wire_part.len();
    if buffer.len() < length {
        return None;
    }
    let (page, rest) = buffer.split_at_mut(input_part.len());
    input_part.write(page);
    let (page, rest) = rest.split_at_mut(gate_part.len());
    gate_part.write(page);
    wire_part.write(&mut rest[..wire_part.len()]);
    Some(length)
}

/// Theorem: how long a sheet is.
pub fn sheet_length()
    ensures { SheetLength }
{}

/// Theorem: no sheet of a board is longer than the longest, and some are as long.
pub fn sheet_longest()
    ensures { SheetLongest }
{}

/// Theorem: a sheet tells its counts and its marks.
pub fn sheet_injective()
    ensures { SheetInjective }
{}
