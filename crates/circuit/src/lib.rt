//! Circuits: signals, tables of gates and wires, excitations for bits and for marks, and the two passes.
#![tactic(auto)]

ghost use Rattle.std.specs.Prelude.{◌≡◌};
ghost use Rattle.circuit.specs.Circuits.{tapped};

pub mod level;
pub mod passes;
pub mod reserved;
pub mod tables;

/// A gate: its kind in the library, and its wires, one for each pin, from `first` on.
// The wires of all gates stand in one list whose memory is reserved at opening, so a gate holds a number into it.
#[derive(Clone, Copy, PartialEq, Eq, Debug)]
pub struct Gate {
    pub kind: usize,
    pub first: usize,
    pub pins: usize,
}

/// What a pin may be joined to.
#[derive(Clone, Copy, PartialEq, Eq, Debug)]
pub enum Source {
    Input(usize),
    Gate(usize),
}

/// A signal by section and number.
#[derive(Clone, Copy, PartialEq, Eq, Debug)]
pub enum Signal {
    Input(usize),
    Gate(usize),
    Wire(usize),
}

impl From<Source> for Signal {
    ghost from_gives = { λ source signal. signal ≡ tapped source };

    fn from(source: Source) -> Signal {
        match source {
            Source::Input(i) => Signal::Input(i),
            Source::Gate(g) => Signal::Gate(g),
        }
    }
}
