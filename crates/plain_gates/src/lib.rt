//! Plain gates: AND, OR and XOR of 1 to 8 pins, and the majority of three.
#![tactic(auto)]

ghost use Rattle.plain_gates.specs.Plain.{plain, PlainNumbered};
ghost use Rattle.std.proofs.Common.{rules};

use gates::{GateLibrary, Mark};
use rules::{numbered, rule_for};

mod ones;
mod rules;
#[cfg(test)]
mod tests;

/// The library of plain gates, kinds 0 to 24.
#[derive(Clone, Copy)]
pub struct PlainGates;

impl GateLibrary for PlainGates {
    ghost kinds = { λ _. plain };

    ghost lawful = { unfold plain in Prim.search rules };

    fn kind_count(&self) -> usize {
        25
    }

    fn pin_count(&self, kind: usize) -> Option<usize> {
        let (_, pins) = numbered(kind)?;
        Some(pins)
    }

    fn value(&self, kind: usize, bits: &[bool]) -> Option<bool> {
        Some(rule_for(kind, bits)?.value(bits))
    }

    fn extension(&self, kind: usize, marks: &[Mark]) -> Option<Mark> {
        Some(rule_for(kind, marks)?.extension(marks))
    }
}

/// Theorem: which kind each number names.
pub fn plain_numbered()
    ensures { PlainNumbered }
{}
