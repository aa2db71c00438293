//! Examples of gate lists: the sheets of boards, each refusal, and which of two faults counts.
#![tactic(auto)]

use bench_answer::bench;
use std::alloc::{AllocError, Global};

#[cfg(test)]
mod asserted;
#[cfg(test)]
mod faults;
#[cfg(test)]
mod replaced;
#[cfg(test)]
mod sheets;

/// Whether the bench answers these bytes to a text.
pub fn answers(heap: Global, text: &[u8], bytes: &[u8]) -> Result<bool, AllocError> {
    let answer = bench(heap, text)?;
    Ok(answer.as_slice() == bytes)
}

/// A list whose first 48 gates have 384 wires, before its last gate line.
pub fn full(heap: Global, last: &[u8]) -> Result<Vec<u8>, AllocError> {
    let mut text = Vec::from_slice(heap, b"inputs 0\ngates 49\n")?;
    for i in 0..48u8 {
        let line = format!(in heap; "w{i} and 8 0 w0 0 w0 0 w0 0 w0 0 w0 0 w0 0 w0 0 w0 0\n")?;
        text.extend_from_slice(line.as_bytes())?;
    }
    text.extend_from_slice(last)?;
    Ok(text)
}
