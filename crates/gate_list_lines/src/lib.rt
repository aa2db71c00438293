//! The lines of a gate list, read from a borrowed text.
#![tactic(auto)]

ghost use Rattle.std.specs.Prelude.{◌≡◌, ◌<◌};
ghost use Rattle.gate_list_format.specs.Lists.{pin_end as pins_end};
ghost use Rattle.gate_list_fields.specs.Taken.{end_of};
ghost use Rattle.gate_list_names.specs.Given.{all_names};
ghost use Rattle.gate_list_lines.specs.Lines.{HeadingRead, PinRead, PinsRead, InputLine, GateLine, section_word, section_most, line_name, line_input, line_gate};

use gate_list_fields::{End, Fault, bit_slot};
use gate_list_names::Names;
use slots::{count_slot, name_slot, source_slot, word_taken};
use words::{shape_slot, word_slot};

mod slots;
mod words;

/// What an input line says; the name is a part of the text
#[derive(Clone, Copy)]
pub struct InputFields<'a> {
    pub name: &'a [u8],
    pub applied: u8,
    pub start: u8,
}

/// What a gate line says; the name and the pins' fields are parts of the text
#[derive(Clone, Copy)]
pub struct GateFields<'a> {
    pub name: &'a [u8],
    pub kind: usize,
    pub pin_count: u8,
    pub start: u8,
    pub pins: &'a [u8],
}

/// A read line
// One of two cases, whose names are parts of the text.
#[derive(Clone, Copy)]
pub enum Line<'a> {
    Input(InputFields<'a>),
    Gate(GateFields<'a>),
}

/// The fields of a pin: its source's name, a part of the text, and its wire's start bit
#[derive(Clone, Copy)]
pub struct PinFields<'a> {
    pub source: &'a [u8],
    pub start: u8,
}

/// A section of a gate list
#[derive(Clone, Copy, PartialEq, Eq, Debug)]
pub enum Section {
    Inputs,
    Gates,
}

impl Section {
    /// The word of its heading
    fn word(self) -> &'static [u8]
        ensures { result.now ≡ section_word self }
    {
        match self {
            Section::Inputs => b"inputs",
            Section::Gates => b"gates",
        }
    }

    /// The most lines that it may have
    fn most(self) -> u8
        ensures most { result ≡ section_most self }
        ensures small { result < 100 }
    {
        // The format's own limits: that the circuit's are the same numbers is no part of the format.
        match self {
            Section::Inputs => 32,
            Section::Gates => 96,
        }
    }
}

/// The heading of a section: how many lines it has, and the text behind it
pub fn heading(text: &[u8], section: Section) -> Result<(u8, &[u8]), Fault>
    ensures { HeadingRead (section_word section) (section_most section) text.now result }
{
    let behind = word_taken(text, section.word())?;
    count_slot(behind, section.most())
}

/// An input line whose name is none of those given, and the text behind it
pub fn input_line<'a>(text: &'a [u8], names: Names<'_>) -> Result<(Line<'a>, &'a [u8]), Fault>
    ensures { InputLine (all_names names.entry) text.now result }
{
    let (name, text) = name_slot(text, names)?;
    let (applied, text) = bit_slot(text, End::Space)?;
    let (start, text) = bit_slot(text, End::Newline)?;
    let fields = InputFields {
        name,
        applied,
        start,
    };
    Ok((Line::Input(fields), text))
}

/// A gate line whose name is none of those given, behind so many wires, and the text behind it
pub fn gate_line<'a>(
    text: &'a [u8],
    names: Names<'_>,
    before: usize,
) -> Result<(Line<'a>, &'a [u8]), Fault>
    ensures { GateLine (all_names names.entry) before text.now result }
{
    let (name, text) = name_slot(text, names)?;
    let (word, text) = word_slot(text)?;
    let (shape, text) = shape_slot(text, word, before)?;
    let (start, text) = bit_slot(text, End::Space)?;
    let rest = pins_part(text, shape.pins)?;
    let kind = shape.kind();
    let pins = &text[..text.len() - rest.len()];
    let fields = GateFields {
        name,
        kind,
        pin_count: shape.pins,
        start,
        pins,
    };
    Ok((Line::Gate(fields), rest))
}

/// One pin's fields, and the text behind their end
pub fn pin(text: &[u8], end: End) -> Result<(PinFields<'_>, &[u8]), Fault>
    ensures { PinRead (end_of end) text.now result }
{
    let (source, behind) = source_slot(text)?;
    let (start, rest) = bit_slot(behind, end)?;
    Ok((PinFields { source, start }, rest))
}

/// What ends a pin's fields before so many more pins
pub fn pin_end(more: u8) -> End
    ensures { end_of result ≡ pins_end more }
{
    if more == 0 { End::Newline } else { End::Space }
}

impl<'a> Line<'a> {
    /// The name in a line
    pub fn name(self) -> &'a [u8]
        ensures { result.now ≡ line_name self.entry }
    {
        match self {
            Line::Input(fields) => fields.name,
            Line::Gate(fields) => fields.name,
        }
    }

    /// The fields of an input line
    pub fn input(self) -> Option<InputFields<'a>>
        ensures { result ≡ line_input self.entry }
    {
        match self {
            Line::Input(fields) => Some(fields),
            Line::Gate(_) => None,
        }
    }

    /// The fields of a gate line
    pub fn gate(self) -> Option<GateFields<'a>>
        ensures { result ≡ line_gate self.entry }
    {
        match self {
            Line::Input(_) => None,
            Line::Gate(fields) => Some(fields),
        }
    }
}

/// The text behind so many pins and the line's end
fn pins_part(text: &[u8], count: u8) -> Result<&[u8], Fault>
    requires { 0 < count }
    ensures { PinsRead count text.now result }
{
    let mut rest = text;
    for more in (0..count).rev() {
        rest = pin(rest, pin_end(more))?.1;
    }
    Ok(rest)
}
