//! Gate lists: a text is read into name tables, or refused with its first fault.
#![tactic(auto)]

ghost use Rattle.std.specs.Prelude.{◌≡◌, ◌+◌, ◌<◌, ◌≤◌, length, Some};
ghost use Rattle.gate_list_format.specs.Reading.{admitted};
ghost use Rattle.gate_list_names.specs.Given.{all_names};
ghost use Rattle.gate_list.specs.Laws.{EntriesName, EntriesStand};
ghost use Rattle.gate_list.specs.Refusals.{refusal_number, refusal_line, from_record, refusal_words, tied};
ghost use Rattle.gate_list.specs.Tables.{told, counts, input_table, gate_table};
ghost use Rattle.gate_list.specs.Parts.{Rest, InputsRead, GatesRead, InputsIn, InputSection, GateSection, LinesRead, PinCount, SourceKnown, GateKnown, UnknownGate, ListRead};

use gate_list_fields::Fault;
use gate_list_lines::{Line, Section, gate_line, heading, input_line};
use gate_list_lookup::{gate_at, pin_at};
use gate_list_names::{GateEntry, InputEntry, Names, blank_from};
use std::error::Error;
use std::fmt;

/// The most bytes that are read
const MOST_BYTES: usize = 65536;

// The format's own limits: that the circuit's are the same numbers is no part of the format.
/// The fewest entries that the table of inputs may have
pub const INPUT_ENTRIES: usize = 32;

/// The fewest entries that the table of gates may have
pub const GATE_ENTRIES: usize = 96;

/// Why a gate list is refused
#[derive(Clone, Copy, PartialEq, Eq, Debug)]
pub enum Refusal {
    /// The text is too long, or a name table too short
    Size,
    /// The first fault and its line, from 1
    At { fault: Fault, line: usize },
}

impl Refusal {
    /// The refusal's number
    pub fn number(self) -> u8
        ensures { result ≡ refusal_number self }
    {
        match self {
            Refusal::Size => 14,
            Refusal::At { fault, .. } => fault.number(),
        }
    }

    /// The line that it stands in, or 0
    // 0 is what is printed where there is no line.
    pub fn line(self) -> usize
        ensures { result ≡ refusal_line self }
    {
        match self {
            Refusal::Size => 0,
            Refusal::At { line, .. } => line,
        }
    }

    /// Whether a record of the circuit would refuse it, and not only the text
    pub fn is_records(self) -> bool
        ensures { result ≡ from_record self }
    {
        matches!(
            self,
            Refusal::At {
                fault: Fault::Wires,
                ..
            }
        )
    }
}

impl fmt::Display for Refusal {
    ghost output = { λ refusal. Some (refusal_words (refusal_number refusal) (refusal_line refusal)) };

    fn fmt<W: fmt::Write>(&self, f: &mut fmt::Formatter<W>) -> fmt::Result {
        let number = self.number();
        let line = self.line();
        let refuser = if self.is_records() { "record" } else { "text" };
        write!(f, "refused {number} {refuser} line {line}")
    }
}

impl Error for Refusal {}

/// Reads a gate list, whose names and kinds go into the tables: how many inputs and gates it has
pub fn check_list(
    text: &[u8],
    inputs: &mut [InputEntry],
    gates: &mut [GateEntry],
) -> Result<(usize, usize), Refusal>
    ensures answer { told result ≡ counts (admitted (length inputs.old) (length gates.old) text.now) }
    ensures inputs { inputs.new ≡ input_table inputs.old (admitted (length inputs.old) (length gates.old) text.now) }
    ensures gates { gates.new ≡ gate_table gates.old (admitted (length inputs.old) (length gates.old) text.now) }
{
    if text.len() > MOST_BYTES || inputs.len() < INPUT_ENTRIES || gates.len() < GATE_ENTRIES {
        return Err(Refusal::Size);
    }
    let read = read_list(text, inputs, gates);
    let (n, r) = read.unwrap_or((0, 0));
    blank_from(inputs, n, InputEntry::default());
    blank_from(gates, r, GateEntry::default());
    read
}

/// The entries of a list give its names
pub fn entries_name()
    ensures { EntriesName }
{}

/// The entries of a list give the places of its lines
pub fn entries_stand()
    ensures { EntriesStand }
{}

/// A gate list whose sources are all there, or the refusal
fn read_list(
    text: &[u8],
    inputs: &mut [InputEntry],
    gates: &mut [GateEntry],
) -> Result<(usize, usize), Refusal>
    requires { (32 ≤ length inputs.old) × (96 ≤ length gates.old) }
    ensures { ListRead text.now inputs.new gates.new result }
{
    let (n, r) = read_lines(text, inputs, gates)?;
    let names = Names {
        text,
        inputs: &inputs[..n],
        gates: &gates[..r],
    };
    match unknown_gate(names) {
        Some(k) => Err(Refusal::At {
            fault: Fault::Source,
            line: n + 3 + k,
        }),
        None => Ok((n, r)),
    }
}

/// All lines of a gate list, up to the end of the text
fn read_lines(
    text: &[u8],
    inputs: &mut [InputEntry],
    gates: &mut [GateEntry],
) -> Result<(usize, usize), Refusal>
    requires { (32 ≤ length inputs.old) × (96 ≤ length gates.old) }
    ensures { LinesRead text.now inputs.new gates.new result }
{
    let (n, rest) = read_input_section(text, inputs)?;
    let (r, rest) = read_gate_section(rest, text, n, inputs, gates)?;
    if !rest.is_empty() {
        return Err(Refusal::At {
            fault: Fault::Form,
            line: n + r + 3,
        });
    }
    Ok((n, r))
}

/// The inputs' heading and lines, whose entries begin the table: how many they are, and the text behind them
fn read_input_section<'a>(
    text: &'a [u8],
    table: &mut [InputEntry],
) -> Result<(usize, &'a [u8]), Refusal>
    requires { 32 ≤ length table.old }
    ensures { InputSection text.now table.new result }
{
    let (n, rest) = at_line(1, heading(text, Section::Inputs))?;
    let n = usize::from(n);
    let rest = read_inputs(rest, text, &mut table[..n])?;
    Ok((n, rest))
}

/// The same of the gates, behind so many inputs
fn read_gate_section<'a>(
    text: &'a [u8],
    whole: &[u8],
    n: usize,
    inputs: &[InputEntry],
    table: &mut [GateEntry],
) -> Result<(usize, &'a [u8]), Refusal>
    requires room { (32 ≤ length inputs.now) × (96 ≤ length table.old) }
    requires begun { InputsIn whole.now n inputs.now text.now }
    ensures { GateSection whole.now n inputs.now table.new result }
{
    let (r, rest) = at_line(n + 2, heading(text, Section::Gates))?;
    let r = usize::from(r);
    let rest = read_gates(rest, whole, n + 3, &inputs[..n], &mut table[..r])?;
    Ok((r, rest))
}

/// What was read of a line, or its fault as a refusal
fn at_line<T>(line: usize, read: Result<T, Fault>) -> Result<T, Refusal>
    ensures { result ≡ tied line read }
{
    read.map_err(|fault| Refusal::At { fault, line })
}

/// One input line for each entry of the table, which take their names; the text behind them
fn read_inputs<'a>(
    text: &'a [u8],
    whole: &[u8],
    table: &mut [InputEntry],
) -> Result<&'a [u8], Refusal>
    requires few { length table.old < 1000 }
    requires rest { Rest whole.now text.now }
    ensures { InputsRead (length table.old) whole.now text.now table.new result }
{
    let mut rest = text;
    // By number: the entries before are read while the next one is written, and a split at each line says the same with more words.
    for i in 0..table.len() {
        let place = whole.len() - rest.len();
        let names = Names {
            text: whole,
            inputs: &table[..i],
            gates: &[],
        };
        let (line, behind) = at_line(2 + i, input_line(rest, names))?;
        table[i] = InputEntry {
            place,
            length: line.name().len(),
        };
        rest = behind;
    }
    Ok(rest)
}

/// One gate line for each entry of the table, which take their names and kinds; the text behind them
fn read_gates<'a>(
    text: &'a [u8],
    whole: &[u8],
    first: usize,
    inputs: &[InputEntry],
    table: &mut [GateEntry],
) -> Result<&'a [u8], Refusal>
    requires few { first + length table.old < 1000 }
    requires rest { Rest whole.now text.now }
    ensures { GatesRead (length table.old) first whole.now text.now inputs.now table.new result }
{
    let mut rest = text;
    let mut before: usize = 0;
    // By number, as the inputs are, and the wires are summed up as the lines are read.
    for i in 0..table.len() {
        let place = whole.len() - rest.len();
        let names = Names {
            text: whole,
            inputs,
            gates: &table[..i],
        };
        let (line, behind) = at_line(first + i, gate_line(rest, names, before))?;
        let Line::Gate(gate) = line else {
            unreachable()
        };
        table[i] = GateEntry {
            place,
            length: gate.name.len(),
            kind: gate.kind,
        };
        let pins = usize::from(gate.pin_count);
        before += pins;
        rest = behind;
    }
    Ok(rest)
}

/// The first gate with a source that no input or gate has for its name
fn unknown_gate(names: Names<'_>) -> Option<usize>
    ensures { UnknownGate names.entry result }
{
    names
        .gates
        .iter()
        .position(|entry| !gate_known(names, entry.place))
}

/// Whether all sources of the gate line at a place are there
fn gate_known(names: Names<'_>, place: usize) -> bool
    ensures { GateKnown (all_names names.entry) names.entry.text.now place result }
{
    (0..pin_count_at(names.text, place)).all(|p| source_known(names, place, usize::from(p)))
}

/// Whether the source of a pin is there, in the gate line at a place
fn source_known(names: Names<'_>, place: usize, pin: usize) -> bool
    ensures { SourceKnown (all_names names.entry) names.entry.text.now place pin result }
{
    let Some(fields) = pin_at(names.text, place, pin) else {
        return false
    };
    names.source(fields.source).is_some()
}

/// The pin count of the gate line at a place
// A line that is not there has no pins.
fn pin_count_at(text: &[u8], place: usize) -> u8
    ensures { PinCount text.now place result }
{
    gate_at(text, place).map_or(0, |gate| gate.pin_count)
}

#[cfg(test)]
mod tests {
    use super::*;
    use std::test::Fail;

    fn refused(text: &[u8], number: u8, line: usize) -> bool {
        let mut inputs = [InputEntry::default(); INPUT_ENTRIES];
        let mut gates = [GateEntry::default(); GATE_ENTRIES];
        check_list(text, &mut inputs[..], &mut gates[..]).is_err_and(|refusal| refusal.number()
            == number
            && refusal.line() == line)
    }

    #[test]
    fn latch(rt: HostRuntime) -> Result<(), Fail> {
        let text =
            b"inputs 2\nset 0 1\nreset 0 1\ngates 2\nq nor 2 0 set 1 qn 0\nqn nor 2 0 reset 1 q 0\n";
        let mut inputs = [InputEntry::default(); 40];
        let mut gates = [GateEntry::default(); 100];
        inputs[39].place = 7;
        let (n, r) = check_list(text, &mut inputs[..], &mut gates[..]).map_err(|_| Fail::new(
            "refused",
        ))?;
        assert!(rt; n == 2 && r == 2);
        assert!(rt; inputs[0].place == 9 && inputs[0].length == 3);
        assert!(rt; inputs[1].place == 17 && inputs[1].length == 5);
        assert!(rt; inputs[39].place == 0);
        assert!(rt; gates[0].place == 35 && gates[0].length == 1 && gates[0].kind == 19);
        assert!(rt; gates[1].place == 56 && gates[1].length == 2 && gates[1].kind == 19);
        assert!(rt; gates[2].kind == 0);
        Ok(())
    }

    #[test]
    fn words(rt: HostRuntime) -> Result<(), Fail> {
        let heap = rt.alloc();
        let wires = Refusal::At {
            fault: Fault::Wires,
            line: 7,
        };
        assert!(rt; wires.to_string(heap)?.as_str() == "refused 2 record line 7");
        assert!(rt; Refusal::Size.to_string(heap)?.as_str() == "refused 14 text line 0");
        Ok(())
    }

    #[test]
    fn refusals(rt: HostRuntime) {
        assert!(rt; refused(b"", 15, 1));
        assert!(rt; refused(b"inputs 2\r\n", 16, 1));
        assert!(rt; refused(b"inputs 2\na 0 0\na", 17, 3));
        assert!(rt; refused(b"inputs 0\ngates 1\ng or 1 0 g 0\n", 18, 3));
        assert!(rt; refused(b"inputs 0\ngates 1\ng not 1 0 b 0\n", 19, 3));
        assert!(rt; refused(b"inputs 0\ngates 0\n\n", 15, 3));
    }
}
