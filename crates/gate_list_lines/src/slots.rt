//! The slots of a gate list's lines, each a field and its end.
ghost use Rattle.std.specs.Prelude.{◌≡◌, ◌+◌, ◌-◌, ◌<◌, ◌≤◌, decimal, MatchResult};
ghost use Rattle.std.specs.Fn.{FnOnceReturnsAt};
ghost use Rattle.gate_list_format.specs.Slots.{space, newline, fits, fault, field};
ghost use Rattle.gate_list_format.specs.Reading.{pick, heading, source_name as source_judge, new_name as name_judge};
ghost use Rattle.gate_list_fields.specs.Faults.{number_of};
ghost use Rattle.gate_list_fields.specs.Taken.{end_of, judged, Slotted, Named};
ghost use Rattle.gate_list_names.specs.Given.{all_names};
ghost use Rattle.gate_list_lines.specs.Judging.{SlotRead, NameJudged};
ghost use Rattle.gate_list_lines.specs.Lines.{WordTaken};

use gate_list_fields::{End, Fault, close, is_name, short_number, split_field};
use gate_list_names::Names;

/// What a judge makes of a field that is there, and the text behind the field's end, or the fault
pub(crate) fn slot<'a, T: Copy, J: FnOnce(&'a [u8]) -> Result<T, Fault>>(
    text: &'a [u8],
    end: End,
    judge: J,
) -> Result<(T, &'a [u8]), Fault>
    requires { J.IsAlwaysCallable judge }
    ensures { SlotRead (FnOnceReturnsAt J.FnOnce judge (field text.now)) (end_of end) text.now result }
{
    let (field, behind) = split_field(text);
    if field.is_empty() {
        return Err(Fault::Form);
    }
    let value = judge(field)?;
    let rest = close(behind, end)?;
    Ok((value, rest))
}

/// A number from `least` to `most`, or its fault
pub(crate) fn number(field: &[u8], least: u8, most: u8) -> Result<u8, Fault>
    requires { (least ≤ most) × (most < 100) }
    ensures { pick 16 decimal least (most + 1 - least) field.now ≡ judged result }
{
    match short_number(field) {
        Some(value) if (least..=most).contains(&value) => Ok(value),
        _ => Err(Fault::Number),
    }
}

/// A name that none of those given is, or its fault
fn new_name<'a>(field: &'a [u8], names: Names<'_>) -> Result<&'a [u8], Fault>
    ensures { NameJudged (name_judge (all_names names.entry)) field.now result }
{
    if !is_name(field) {
        return Err(Fault::Form);
    }
    match names.source(field) {
        Some(_) => Err(Fault::Repeated),
        None => Ok(field),
    }
}

/// A source name, or its fault
fn source_name(field: &[u8]) -> Result<&[u8], Fault>
    ensures { NameJudged source_judge field.now result }
{
    if is_name(field) {
        Ok(field)
    } else {
        Err(Fault::Form)
    }
}

/// A heading's word, or its fault
fn heading_word(field: &[u8], word: &[u8]) -> Result<(), Fault>
    ensures { MatchResult result (λ _. heading word.now field.now ≡ fits 0) (λ f. heading word.now field.now ≡ fault (number_of f)) }
{
    if field == word {
        Ok(())
    } else {
        Err(Fault::Form)
    }
}

/// A heading's word and its end, or the fault
pub(crate) fn word_taken<'a>(text: &'a [u8], word: &[u8]) -> Result<&'a [u8], Fault>
    ensures { WordTaken word.now text.now result }
{
    let (_, rest) = slot(text, End::Space, |field| heading_word(field, word))?;
    Ok(rest)
}

/// A count of at most so many and its end, or the fault
pub(crate) fn count_slot(text: &[u8], most: u8) -> Result<(u8, &[u8]), Fault>
    requires { most < 100 }
    ensures { Slotted (pick 16 decimal 0 (most + 1 - 0)) newline text.now result }
{
    slot(text, End::Newline, |field| number(field, 0, most))
}

/// A name that none of those given is, and its end, or the fault
pub(crate) fn name_slot<'a>(text: &'a [u8], names: Names<'_>) -> Result<(&'a [u8], &'a [u8]), Fault>
    ensures { Named (name_judge (all_names names.entry)) space text.now result }
{
    // The slices one by one: a proof knows nothing of what a closure answers that captures a struct of references.
    let (whole, inputs, gates) = (names.text, names.inputs, names.gates);
    slot(text, End::Space, |field| {
        let names = Names {
            text: whole,
            inputs,
            gates,
        };
        new_name(field, names)
    })
}

/// A source name and its end, or the fault
pub(crate) fn source_slot(text: &[u8]) -> Result<(&[u8], &[u8]), Fault>
    ensures { Named source_judge space text.now result }
{
    slot(text, End::Space, source_name)
}
