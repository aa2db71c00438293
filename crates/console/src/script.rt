//! Scripts: a call on each line.
use anyhow::anyhow;
use calls::Call;
use circuit::Signal;
use std::alloc::{AllocError, Global};

/// The calls of the script on standard input, or the first line that is no call.
pub fn read_script(rt: &HostRuntime) -> anyhow::Result<Vec<Call>> {
    let heap = rt.alloc();
    let mut calls = Vec::new(heap);
    for (i, line) in rt.lines(heap).enumerate() {
        let line = line?;
        if is_blank(line.as_str()) {
            continue;
        }
        let Some(call) = call_of(heap, line.as_str())? else {
            let number = i + 1;
            return Err(anyhow!(format!(in heap; "line {number} is not a call")?));
        };
        calls.push(call)?;
    }
    Ok(calls)
}

// An empty line or a remark.
fn is_blank(line: &str) -> bool {
    let line = line.trim_start();
    line.is_empty() || line.starts_with('#')
}

fn call_of(heap: Global, line: &str) -> Result<Option<Call>, AllocError> {
    let words: Vec<&str> = line.split_whitespace().collect(heap)?;
    match words.as_slice() {
        ["fire", signals @ ..] => fire(heap, signals),
        words => Ok(short_call(words)),
    }
}

fn fire(heap: Global, words: &[&str]) -> Result<Option<Call>, AllocError> {
    let signals: Option<Vec<Signal>> = words.iter().map(|word| signal(word)).collect(heap)?;
    Ok(signals.map(Call::Fire))
}

// A call whose arguments take no memory.
fn short_call(words: &[&str]) -> Option<Call> {
    match words {
        ["add_input"] => Some(Call::AddInput),
        ["add_gate", kind] => Some(Call::AddGate(kind.parse().ok()?)),
        ["join", gate, pin, source] => Some(Call::Join(
            gate.parse().ok()?,
            pin.parse().ok()?,
            signal(source)?,
        )),
        ["set_input", input, bit] => Some(Call::SetInput(input.parse().ok()?, bit.parse().ok()?)),
        ["set_signal", place, bit] => Some(Call::SetSignal(signal(place)?, bit.parse().ok()?)),
        ["unstable", place] => Some(Call::Unstable(signal(place)?)),
        ["run"] => Some(Call::Run),
        ["marks", place] => Some(Call::Marks(signal(place)?)),
        ["adopt"] => Some(Call::Adopt),
        ["sheet", room] => Some(Call::Sheet(room.parse().ok()?)),
        _ => None,
    }
}

// An input `x`, a gate `y` or a wire `z`, with its number.
fn signal(word: &str) -> Option<Signal> {
    let (letter, number) = word.split_at_checked(1)?;
    let number = number.parse().ok()?;
    match letter {
        "x" => Some(Signal::Input(number)),
        "y" => Some(Signal::Gate(number)),
        "z" => Some(Signal::Wire(number)),
        _ => None,
    }
}
