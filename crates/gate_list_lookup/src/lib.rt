//! Single lines of a gate list, looked up by their places in the text.
#![tactic(auto)]

ghost use Rattle.std.specs.Prelude.{◌≡◌, List, [], length, drop};
ghost use Rattle.std.specs.List.{AllByRecursion};
ghost use Rattle.gate_list_format.specs.Lists.{Pin, LawfulPin, write_pins};
ghost use Rattle.gate_list_names.specs.Given.{all_names};
ghost use Rattle.gate_list_lookup.specs.Lookup.{InputAt, GateAt, PinAt, PinOf};

use gate_list_lines::{GateFields, InputFields, PinFields, gate_line, input_line, pin, pin_end};
use gate_list_names::Names;

/// The input line at a place of a text
pub fn input_at(text: &[u8], place: usize) -> Option<InputFields<'_>>
    ensures { InputAt (drop place text.now) result }
{
    let (line, _) = input_line(behind(text, place), no_names()).ok()?;
    line.input()
}

/// The gate line at a place of a text
pub fn gate_at(text: &[u8], place: usize) -> Option<GateFields<'_>>
    ensures { GateAt (drop place text.now) result }
{
    let (line, _) = gate_line(behind(text, place), no_names(), 0).ok()?;
    line.gate()
}

/// A pin's fields in the gate line at a place of a text
pub fn pin_at(text: &[u8], place: usize, p: usize) -> Option<PinFields<'_>>
    ensures { PinAt (drop place text.now) p result }
{
    let gate = gate_at(text, place)?;
    pin_of(gate.pins, gate.pin_count, p)
}

/// A pin's fields among those of so many pins
// A walk of its own: it ends at the pin that is asked for, and the one that reads a line goes through all.
fn pin_of(pins: &[u8], count: u8, p: usize) -> Option<PinFields<'_>>
    ensures { (ps : List Pin) → AllByRecursion LawfulPin ps → length ps ≡ count → pins.now ≡ write_pins ps [] → PinOf ps p result }
{
    let mut rest = pins;
    for i in 0..count {
        let (fields, behind) = pin(rest, pin_end(count - i - 1)).ok()?;
        if usize::from(i) == p {
            return Some(fields);
        }
        rest = behind;
    }
    None
}

/// The text from a place on
fn behind(text: &[u8], place: usize) -> &[u8]
    ensures { result.now ≡ drop place text.now }
{
    &text[place.min(text.len())..]
}

/// The names of no inputs and no gates
fn no_names() -> Names<'static>
    ensures { all_names result ≡ [] }
{
    Names {
        text: &[],
        inputs: &[],
        gates: &[],
    }
}
