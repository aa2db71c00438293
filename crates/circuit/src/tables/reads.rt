//! What the tables hold.
ghost use Rattle.std.specs.Prelude.{◌≡◌, ℕ, ◌+◌, ◌<◌, ◌≤◌, length, if◌then◌else◌, Some, None, slice_index_or};
ghost use Rattle.circuit.specs.Circuits.{no_gate, place, size};
ghost use Rattle.circuit.specs.Changes.{has_signal, source_of};
ghost use Rattle.circuit.specs.Wiring.{first_unjoined, FirstUnjoinedExact, Kept};

use super::Tables;
use crate::{Gate, Signal, Source};

impl Tables {
    /// Theorem: what every circuit in tables keeps.
    pub fn kept(&self)
        ensures { Kept self.now }
    {
        // The invariant is known where a field is read.
        let _ = &self.applied;
    }

    pub fn input_count(&self) -> usize
        ensures { result ≡ length self.now.applied }
    {
        self.applied.len()
    }

    pub fn gate_count(&self) -> usize
        ensures { result ≡ length self.now.gates }
    {
        self.gates.len()
    }

    /// How many signals there are.
    pub fn size(&self) -> usize
        ensures { result ≡ size self.now }
    {
        self.applied.len() + self.gates.len() + self.sources.len()
    }

    /// Where a signal stands in sheet order, or nothing where there is no such signal.
    pub fn place(&self, signal: Signal) -> Option<usize>
        ensures { result ≡ (if has_signal self.now signal then Some (place self.now signal) else None) }
    {
        let inputs = self.applied.len();
        let gates = self.gates.len();
        match signal {
            Signal::Input(i) if i < inputs => Some(i),
            Signal::Gate(g) if g < gates => Some(inputs + g),
            Signal::Wire(w) if w < self.sources.len() => Some(inputs + gates + w),
            _ => None,
        }
    }

    /// A signal as a source: an input or a gate that is there.
    pub fn source_of(&self, signal: Signal) -> Option<Source>
        ensures { result ≡ source_of self.now signal }
    {
        match signal {
            Signal::Input(i) if i < self.applied.len() => Some(Source::Input(i)),
            Signal::Gate(g) if g < self.gates.len() => Some(Source::Gate(g)),
            _ => None,
        }
    }

    // A gate that is there; so are its wires.
    pub(super) fn gate(&self, number: usize) -> Gate
        requires { number < length self.now.gates }
        ensures is { result ≡ slice_index_or self.now.gates number no_gate }
        ensures wires { result.first + result.pins ≤ length self.now.sources }
    {
        self.gates[number]
    }

    /// The first unjoined pin, by gate and then by pin.
    pub fn first_unjoined(&self) -> Option<(usize, usize)>
        ensures { result ≡ first_unjoined self.now }
    {
        // Two loops, by gate and then by pin, left by a label at the first pin that is found.
        'search: {
            for (number, gate) in self.gates.iter().enumerate() {
                let sources = &self.sources[gate.first..gate.first + gate.pins];
                for (pin, source) in sources.iter().enumerate() {
                    if source.is_none() {
                        break 'search Some((number, pin));
                    }
                }
            }
            None
        }
    }
}

/// Theorem: the first unjoined pin is the one that comes first by gate and then by pin, and there is none exactly if all are joined.
pub fn first_unjoined_exact()
    ensures { FirstUnjoinedExact }
{}
