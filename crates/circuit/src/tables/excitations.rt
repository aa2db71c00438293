//! What signals are driven to: one text for bits and for marks.
ghost use Rattle.std.specs.Prelude.{◌≡◌, ℕ, ◌+◌, ◌<◌, false, length, Decides, MatchOption, ◌≢◌, slice_index_or};
ghost use Rattle.circuit.specs.Circuits.{Has, size, place, tapped, excitation};
ghost use Rattle.circuit.specs.Changes.{has_signal};

use super::Tables;
use crate::level::Level;
use crate::{Signal, Source};
use gates::GateLibrary;

/// A circuit in a state: its tables, the library of its gates, and what each signal carries.
#[derive(Drop)]
pub(crate) struct Moment<'a, L, V> {
    pub tables: &'a Tables,
    pub library: &'a L,
    pub state: &'a [V],
    ghost whole: { length state.now ≡ size tables.now },
}

impl<'a, L: GateLibrary, V: Level<L>> Moment<'a, L, V> {
    /// What a signal is driven to.
    fn driven(&self, signal: Signal) -> V
        requires { Has self.now.tables.now signal }
        ensures { result ≡ excitation V.Level.bit V.Level.give (L.GateLibrary.kinds self.now.library.now) self.now.tables.now self.now.state.now signal }
    {
        match signal {
            Signal::Input(i) => self.input(i),
            Signal::Gate(g) => self.gate(g),
            Signal::Wire(w) => self.wire(w),
        }
    }

    /// An input's applied value.
    pub(crate) fn input(&self, number: usize) -> V
        requires { number < length self.now.tables.now.applied }
        ensures { result ≡ excitation V.Level.bit V.Level.give (L.GateLibrary.kinds self.now.library.now) self.now.tables.now self.now.state.now (Signal.Input number) }
    {
        let tables = self.tables;
        V::of_bit(tables.applied[number])
    }

    /// A gate's function of its wires, which stand side by side.
    pub(crate) fn gate(&self, number: usize) -> V
        requires { number < length self.now.tables.now.gates }
        ensures { result ≡ excitation V.Level.bit V.Level.give (L.GateLibrary.kinds self.now.library.now) self.now.tables.now self.now.state.now (Signal.Gate number) }
    {
        let tables = self.tables;
        let gate = tables.gate(number);
        let first = tables.applied.len() + tables.gates.len() + gate.first;
        V::gate_value(
            self.library,
            gate.kind,
            &self.state[first..first + gate.pins],
        )
    }

    /// The value of a wire's source.
    pub(crate) fn wire(&self, number: usize) -> V
        requires { number < length self.now.tables.now.sources }
        ensures { result ≡ excitation V.Level.bit V.Level.give (L.GateLibrary.kinds self.now.library.now) self.now.tables.now self.now.state.now (Signal.Wire number) }
    {
        let tables = self.tables;
        match tables.sources[number] {
            Some(source) => self.state[self.place(source)],
            None => V::of_bit(false),
        }
    }

    // Where a source stands in sheet order; `Tables::place` would test once more that it is there.
    fn place(&self, source: Source) -> usize
        requires { Has self.now.tables.now (tapped source) }
        ensures value { result ≡ place self.now.tables.now (tapped source) }
        ensures within { result < length self.now.state.now }
    {
        match source {
            Source::Input(i) => i,
            Source::Gate(g) => self.tables.input_count() + g,
        }
    }
}

impl Tables {
    /// Whether a signal differs from what it is driven to; nothing where there is no such signal or the state has another length.
    pub fn unstable<L: GateLibrary, V: Level<L>>(
        &self,
        library: &L,
        state: &[V],
        signal: Signal,
    ) -> Option<bool>
        ensures { MatchOption result
            ((length state.now ≡ size self.now) → Has self.now signal → ⊥)
            (λ b. Has self.now signal × Decides b (slice_index_or state.now (place self.now signal) (V.Level.bit false) ≢ excitation V.Level.bit V.Level.give (L.GateLibrary.kinds library.now) self.now state.now signal)) }
    {
        let place = self.place(signal)?;
        if state.len() != self.size() {
            return None;
        }
        let now = Moment {
            tables: self,
            library,
            state,
        };
        Some(!state[place].same(now.driven(signal)))
    }
}
