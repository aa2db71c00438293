//! Entering a circuit and its values.
ghost use Rattle.std.specs.Prelude.{◌≡◌, length, IfOk};
ghost use Rattle.gates.specs.Told.{told_by, left_by};
ghost use Rattle.record.specs.Boards.{opened};
ghost use Rattle.record.specs.Views.{board_of};
ghost use Rattle.record.specs.Answers.{told};
ghost use Rattle.record.specs.Calls.{add_input_stop, input_added, add_gate_stop, gate_added, join_stop, joined, set_input_stop, input_set, set_signal_stop, signal_set};

use super::Record;
use super::checks::bit_of;
use crate::Refusal;
use crate::marks::{MAX_SIGNALS, Marking};
use circuit::Signal;
use circuit::reserved::push_all;
use circuit::tables::Tables;
use gates::GateLibrary;
use std::alloc::{AllocError, Global};

impl<L: GateLibrary> Record<L> {
    /// A record with no signals; all its memory is reserved here.
    pub fn open(heap: Global, library: L) -> Result<Record<L>, AllocError>
    where
        L: Drop,
        ensures { IfOk result (λ v. board_of L.GateLibrary.kinds v ≡ opened (L.GateLibrary.kinds library)) }
    {
        Ok(Record {
            library,
            tables: Tables::open(heap)?,
            values: Vec::with_capacity(heap, MAX_SIGNALS)?,
            marking: Marking::open(heap)?,
        })
    }

    /// Adds an input and answers its number.
    pub fn add_input(&mut self) -> Result<usize, Refusal>
        ensures answer { let b = board_of L.GateLibrary.kinds self.old in told result ≡ told_by (add_input_stop b) (length b.circuit.applied) }
        ensures after { let b = board_of L.GateLibrary.kinds self.old in board_of L.GateLibrary.kinds self.new ≡ left_by (add_input_stop b) b (input_added b) }
    {
        self.tables.kept();
        let number = self.tables.add_input()?;
        self.values.insert(number, false).unwrap();
        self.marking.withdraw();
        Ok(number)
    }

    /// Adds a gate of a kind, with its pins unjoined, and answers its number.
    pub fn add_gate(&mut self, kind: usize) -> Result<usize, Refusal>
        ensures answer { let b = board_of L.GateLibrary.kinds self.old in told result ≡ told_by (add_gate_stop b kind) (length b.circuit.gates) }
        ensures after { let b = board_of L.GateLibrary.kinds self.old in board_of L.GateLibrary.kinds self.new ≡ left_by (add_gate_stop b kind) b (gate_added b kind) }
    {
        let pins = self.library.pin_count(kind).ok_or(Refusal::NoKind)?;
        let place = self.tables.input_count() + self.tables.gate_count();
        self.tables.kept();
        let number = self.tables.add_gate(kind, pins)?;
        self.values.insert(place, false).unwrap();
        push_all(&mut self.values, pins, false).unwrap();
        self.marking.withdraw();
        Ok(number)
    }

    /// Joins a gate's pin to an input or a gate as its source, anew too.
    pub fn join(&mut self, gate: usize, pin: usize, source: Signal) -> Result<(), Refusal>
        ensures answer { let b = board_of L.GateLibrary.kinds self.old in told result ≡ told_by (join_stop b gate pin source) tt }
        ensures after { let b = board_of L.GateLibrary.kinds self.old in board_of L.GateLibrary.kinds self.new ≡ left_by (join_stop b gate pin source) b (joined b gate pin source) }
    {
        self.tables.join(gate, pin, source)?;
        self.marking.withdraw();
        Ok(())
    }

    /// Sets an input's applied value.
    pub fn set_input(&mut self, input: usize, bit: u8) -> Result<(), Refusal>
        ensures answer { let b = board_of L.GateLibrary.kinds self.old in told result ≡ told_by (set_input_stop b input bit) tt }
        ensures after { let b = board_of L.GateLibrary.kinds self.old in board_of L.GateLibrary.kinds self.new ≡ left_by (set_input_stop b input bit) b (input_set b input bit) }
    {
        self.place(Signal::Input(input))?;
        let bit = bit_of(bit)?;
        self.tables.apply(input, bit)?;
        self.marking.withdraw();
        Ok(())
    }

    /// Sets a signal's value.
    pub fn set_signal(&mut self, signal: Signal, bit: u8) -> Result<(), Refusal>
        ensures answer { let b = board_of L.GateLibrary.kinds self.old in told result ≡ told_by (set_signal_stop b signal bit) tt }
        ensures after { let b = board_of L.GateLibrary.kinds self.old in board_of L.GateLibrary.kinds self.new ≡ left_by (set_signal_stop b signal bit) b (signal_set b signal bit) }
    {
        let place = self.place(signal)?;
        self.values[place] = bit_of(bit)?;
        self.marking.withdraw();
        Ok(())
    }
}
