//! Opening and filling the tables; what does not fit is refused and changes nothing.
ghost use Rattle.std.specs.Prelude.{◌≡◌, length, IfOk, if◌then◌else◌, Ok, Err};
ghost use Rattle.circuit.specs.Wiring.{Kept};
ghost use Rattle.circuit.specs.Changes.{empty, input_fits, with_input, gate_fits, with_gate, join_fits, with_joined, has_input, with_applied};

use super::Tables;
use crate::reserved::push_all;
use crate::{Gate, Signal};
use std::alloc::{AllocError, Global};

pub const MAX_INPUTS: usize = 32;

pub const MAX_GATES: usize = 96;

pub const MAX_WIRES: usize = 384;

/// Why a change is refused.
#[derive(Clone, Copy, PartialEq, Eq, Debug)]
pub enum Misfit {
    /// There is no room left.
    Full,
    /// What is named is not there.
    Absent,
}

impl Tables {
    pub fn open(heap: Global) -> Result<Tables, AllocError>
        ensures { IfOk result (λ t. t ≡ empty) }
    {
        Ok(Tables {
            applied: Vec::with_capacity(heap, MAX_INPUTS)?,
            gates: Vec::with_capacity(heap, MAX_GATES)?,
            sources: Vec::with_capacity(heap, MAX_WIRES)?,
        })
    }

    /// The new input's number, where there is room.
    pub fn add_input(&mut self) -> Result<usize, Misfit>
        ensures answer { result ≡ (if input_fits self.old then Ok (length self.old.applied) else Err Misfit.Full) }
        ensures after { self.new ≡ (if input_fits self.old then with_input self.old else self.old) }
    {
        let number = self.applied.len();
        if number >= MAX_INPUTS {
            return Err(Misfit::Full);
        }
        self.applied.push_reserved(false);
        Ok(number)
    }

    /// The new gate's number, where there is room for it and its wires.
    pub fn add_gate(&mut self, kind: usize, pins: usize) -> Result<usize, Misfit>
        ensures answer { result ≡ (if gate_fits self.old pins then Ok (length self.old.gates) else Err Misfit.Full) }
        ensures after { self.new ≡ (if gate_fits self.old pins then with_gate self.old kind pins else self.old) }
    {
        let number = self.gates.len();
        let first = self.sources.len();
        if number >= MAX_GATES || pins > MAX_WIRES - first {
            return Err(Misfit::Full);
        }
        self.gates.push_reserved(Gate { kind, first, pins });
        let Ok(()) = push_all(&mut self.sources, pins, None) else {
            unreachable!()
        };
        Ok(number)
    }

    /// Joins a gate's pin to a source, where both are there.
    pub fn join(&mut self, gate: usize, pin: usize, source: Signal) -> Result<(), Misfit>
        ensures answer { result ≡ (if join_fits self.old gate pin source then Ok tt else Err Misfit.Absent) }
        ensures after { self.new ≡ (if join_fits self.old gate pin source then with_joined self.old gate pin source else self.old) }
    {
        if gate >= self.gates.len() {
            return Err(Misfit::Absent);
        }
        let Gate { first, pins, .. } = self.gate(gate);
        if pin >= pins {
            return Err(Misfit::Absent);
        }
        let source = self.source_of(source).ok_or(Misfit::Absent)?;
        self.sources[first + pin] = Some(source);
        Ok(())
    }

    /// Sets an input's applied value, where there is such an input.
    pub fn apply(&mut self, input: usize, bit: bool) -> Result<(), Misfit>
        ensures answer { result ≡ (if has_input self.old input then Ok tt else Err Misfit.Absent) }
        ensures after { self.new ≡ (if has_input self.old input then with_applied self.old input bit else self.old) }
    {
        if input >= self.applied.len() {
            return Err(Misfit::Absent);
        }
        self.applied[input] = bit;
        Ok(())
    }
}
