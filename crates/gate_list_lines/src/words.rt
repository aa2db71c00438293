//! Gate words: their meanings, and the slots of a word and its pin count.
ghost use Rattle.std.specs.Prelude.{◌≡◌, ◌+◌, ◌<◌, ◌≤◌, IfOk, MatchResult};
ghost use Rattle.gate_list_format.specs.Slots.{space, fits, fault, field as slot_field};
ghost use Rattle.gate_list_format.specs.Lists.{least_pins, most_pins, kind_of as kind_by_word};
ghost use Rattle.gate_list_format.specs.Reading.{gate_word as word_judge, pin_count as count_judge};
ghost use Rattle.gate_list_fields.specs.Faults.{number_of};
ghost use Rattle.gate_list_fields.specs.Taken.{Passed, Failed};

use crate::slots::{number, slot};
use gate_list_fields::{End, Fault, word_number};

/// The most wires of a circuit
// The format's own limit: that the circuit's is the same number is no part of the format.
const MOST_WIRES: usize = 384;

/// What a gate word means: its kind with the fewest pins, and the range of its pins
#[derive(Clone, Copy)]
struct Meaning {
    kind: usize,
    least: u8,
    most: u8,
}

// Plain numbers in a constant table: a kind is a number of the gate library's list.
/// The meanings by word number
static MEANINGS: [Meaning; 10] = [
    Meaning {
        kind: 0,
        least: 1,
        most: 1,
    },
    Meaning {
        kind: 1,
        least: 1,
        most: 1,
    },
    Meaning {
        kind: 2,
        least: 2,
        most: 8,
    },
    Meaning {
        kind: 3,
        least: 2,
        most: 8,
    },
    Meaning {
        kind: 18,
        least: 2,
        most: 8,
    },
    Meaning {
        kind: 19,
        least: 2,
        most: 8,
    },
    Meaning {
        kind: 34,
        least: 2,
        most: 8,
    },
    Meaning {
        kind: 35,
        least: 2,
        most: 8,
    },
    Meaning {
        kind: 48,
        least: 3,
        most: 3,
    },
    Meaning {
        kind: 49,
        least: 3,
        most: 3,
    },
];

/// A gate word, by its number
#[derive(Clone, Copy)]
pub(crate) struct Word {
    number: u8,
    ghost known: { number < 10 },
}

/// A gate word with a pin count that it takes
#[derive(Clone, Copy)]
pub(crate) struct Shape {
    word: Word,
    pub(crate) pins: u8,
    ghost some: { 0 < pins },
    ghost least: { least_pins word.number ≤ pins },
    ghost most: { pins ≤ most_pins word.number },
}

impl Word {
    fn meaning(self) -> Meaning
        ensures least { result.least ≡ least_pins self.number }
        ensures most { result.most ≡ most_pins self.number }
        ensures kind { result.kind ≡ kind_by_word self.number (least_pins self.number) }
    {
        MEANINGS[usize::from(self.number)]
    }

    /// This word with a pin count that it takes and that the wires have room for, or the count's fault
    fn shape(self, field: &[u8], before: usize) -> Result<Shape, Fault>
        ensures judge { MatchResult result (λ s. count_judge self.number before field.now ≡ fits s.pins) (λ f. count_judge self.number before field.now ≡ fault (number_of f)) }
        ensures room { IfOk result (λ s. (s.word.number ≡ self.number) × (before + s.pins ≤ 384)) }
    {
        let pins = number(field, 1, 8)?;
        let meaning = self.meaning();
        if !(meaning.least..=meaning.most).contains(&pins) {
            return Err(Fault::Word);
        }
        if usize::from(pins) > MOST_WIRES.saturating_sub(before) {
            return Err(Fault::Wires);
        }
        Ok(Shape { word: self, pins })
    }
}

impl Shape {
    /// The kind that the word names with so many pins
    pub(crate) fn kind(self) -> usize
        ensures { result ≡ kind_by_word self.word.number self.pins }
    {
        let meaning = self.word.meaning();
        meaning.kind + 2 * usize::from(self.pins - meaning.least)
    }
}

/// A gate word, or its fault
fn gate_word(field: &[u8]) -> Result<Word, Fault>
    ensures { MatchResult result (λ w. word_judge field.now ≡ fits w.number) (λ f. word_judge field.now ≡ fault (number_of f)) }
{
    match word_number(field) {
        Some(number) => Ok(Word { number }),
        None => Err(Fault::Word),
    }
}

/// A gate word and its end, or the fault
pub(crate) fn word_slot(text: &[u8]) -> Result<(Word, &[u8]), Fault>
    ensures { MatchResult result (λ x. Passed word_judge space text.now (slot_field text.now) x.0.number x.1.now) (λ f. Failed word_judge space text.now (number_of f)) }
{
    slot(text, End::Space, gate_word)
}

/// A word with a pin count that it takes and that the wires have room for, and the count's end, or the fault
pub(crate) fn shape_slot(text: &[u8], word: Word, before: usize) -> Result<(Shape, &[u8]), Fault>
    ensures slot { MatchResult result (λ x. Passed (count_judge word.number before) space text.now (slot_field text.now) x.0.pins x.1.now) (λ f. Failed (count_judge word.number before) space text.now (number_of f)) }
    ensures room { IfOk result (λ x. (x.0.word.number ≡ word.number) × (before + x.0.pins ≤ 384)) }
{
    slot(text, End::Space, |field| word.shape(field, before))
}
