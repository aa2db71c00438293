//! The fields of a gate list, read from a borrowed text.
#![tactic(auto)]

ghost use Rattle.std.specs.Prelude.{◌≡◌, ℕ, ◌+◌, ◌<◌, ◌||◌, ◌==◌, position, Some as Present, None as Absent, decimal, MatchOption, MatchResult, ◌≢◌};
ghost use Rattle.gate_list_format.specs.Slots.{byte, field, behind, past, verdict};
ghost use Rattle.gate_list_format.specs.Lists.{word_text, letter as is_letter, name_byte as is_name_byte, name_bytes, is_name as is_name_field};
ghost use Rattle.gate_list_format.specs.Reading.{bit as bit_judge};
ghost use Rattle.gate_list_fields.specs.Faults.{number_of};
ghost use Rattle.gate_list_fields.specs.Taken.{end_of, judged, Slotted};

/// What is wrong at a place in a gate list
#[derive(Clone, Copy, PartialEq, Eq, Debug)]
pub enum Fault {
    /// A field or a line end is missing, a field is extra, or a heading, a name or a bit is malformed
    Form,
    /// A number is malformed or outside its range
    Number,
    /// A name is repeated
    Repeated,
    /// The gate word is unknown, or has no such pin count
    Word,
    /// No input or gate has the name of a source
    Source,
    /// The wires are too many
    Wires,
}

impl Fault {
    /// The fault's number
    // Written out, and not as the cases' own values: the numbers are those of the documents, and code goes by the fault.
    pub fn number(self) -> u8
        ensures { result ≡ number_of self }
    {
        match self {
            Fault::Form => 15,
            Fault::Number => 16,
            Fault::Repeated => 17,
            Fault::Word => 18,
            Fault::Source => 19,
            Fault::Wires => 2,
        }
    }
}

/// What ends a field
#[derive(Clone, Copy, PartialEq, Eq, Debug)]
pub enum End {
    /// A space
    Space,
    /// Byte 10
    Newline,
}

impl From<End> for u8 {
    ghost from_gives = { λ end b. b ≡ byte (end_of end) };

    fn from(end: End) -> u8 {
        match end {
            End::Space => b' ',
            End::Newline => b'\n',
        }
    }
}

/// The field that a text begins with, and what stands from its end on
pub fn split_field(text: &[u8]) -> (&[u8], &[u8])
    ensures { (result.0.now ≡ field text.now) × (result.1.now ≡ behind text.now) }
{
    text.split_at(field_end(text).unwrap_or(text.len()))
}

/// Where the field that a text begins with ends before the text does
fn field_end(text: &[u8]) -> Option<usize>
    ensures { result ≡ position (λ b. b == 32 || b == 10) text.now }
{
    text.iter().position(|b| matches!(*b, b' ' | b'\n'))
}

/// What stands behind the end of a field, or the fault that the end is missing
pub fn close(text: &[u8], end: End) -> Result<&[u8], Fault>
    ensures { MatchResult result (λ rest. past (end_of end) text.now ≡ Present rest.now) (λ fault. (fault ≡ Fault.Form) × (past (end_of end) text.now ≡ Absent)) }
{
    match text {
        [first, rest @ ..] if *first == u8::from(end) => Ok(rest),
        _ => Err(Fault::Form),
    }
}

/// A bit, or its fault
// A number and no `bool`, as the record's calls take it.
fn bit(field: &[u8]) -> Result<u8, Fault>
    ensures { verdict bit_judge field.now ≡ judged result }
{
    match field {
        b"0" => Ok(0),
        b"1" => Ok(1),
        _ => Err(Fault::Form),
    }
}

/// A bit and what follows its end, or the fault
pub fn bit_slot(text: &[u8], end: End) -> Result<(u8, &[u8]), Fault>
    ensures { Slotted bit_judge (end_of end) text.now result }
{
    // Not by the generic `slot` of the lines: it asks of its judge that it may be called, and what another crate can name asks nothing.
    let (field, behind) = split_field(text);
    let value = bit(field)?;
    let rest = close(behind, end)?;
    Ok((value, rest))
}

fn digit(b: u8) -> Option<u8>
    ensures { MatchOption result ((d : ℕ) → d < 10 → b ≢ 48 + d) (λ d. (d < 10) × (b ≡ 48 + d)) }
{
    match b {
        b'0'..=b'9' => Some(b - b'0'),
        _ => None,
    }
}

/// The number below 100 that a field writes
pub fn short_number(field: &[u8]) -> Option<u8>
    ensures { MatchOption result ((v : ℕ) → v < 100 → field.now ≢ decimal v) (λ v. (v < 100) × (field.now ≡ decimal v)) }
{
    match field {
        [one] => digit(*one),
        [b'0', _] => None,
        [tens, ones] => {
            let tens = digit(*tens)?;
            let ones = digit(*ones)?;
            Some(tens * 10 + ones)
        }
        _ => None,
    }
}

fn letter(b: u8) -> bool
    ensures { result ≡ is_letter b }
{
    matches!(b, b'a'..=b'z')
}

fn name_byte(b: u8) -> bool
    ensures { result ≡ is_name_byte b }
{
    letter(b) || matches!(b, b'0'..=b'9' | b'_')
}

fn all_name_bytes(bytes: &[u8]) -> bool
    ensures { result ≡ name_bytes bytes.now }
{
    bytes.iter().all(|b| name_byte(*b))
}

/// Whether a field is a name
pub fn is_name(field: &[u8]) -> bool
    ensures { result ≡ is_name_field field.now }
{
    match field {
        [first, rest @ ..] => letter(*first) && all_name_bytes(rest) && rest.len() <= 15,
        [] => false,
    }
}

/// The number of a gate word
pub fn word_number(word: &[u8]) -> Option<u8>
    ensures { MatchOption result ((n : ℕ) → n < 10 → word.now ≢ word_text n) (λ n. (n < 10) × (word.now ≡ word_text n)) }
{
    // Each gate word is a literal case, so that nothing is searched at run time.
    match word {
        b"buf" => Some(0),
        b"not" => Some(1),
        b"and" => Some(2),
        b"nand" => Some(3),
        b"or" => Some(4),
        b"nor" => Some(5),
        b"xor" => Some(6),
        b"xnor" => Some(7),
        b"maj" => Some(8),
        b"min" => Some(9),
        _ => None,
    }
}
