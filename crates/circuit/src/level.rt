//! What a signal carries: a bit, or a mark.
ghost use Rattle.std.specs.Prelude.{◌≡◌, Bool, List, Decides};
ghost use Rattle.gates.specs.Marks.{extended, settled};
ghost use Rattle.circuit.specs.Circuits.{gate_function};

use gates::{GateLibrary, Mark};

/// A kind of value that signals carry, with what the library gives for it.
pub trait Level<L: GateLibrary>: Copy {
    ghost bit: { Bool → Self };

    // a Boolean function at values of this kind
    ghost give: { (List Bool → Bool) → List Self → Self };

    // Methods of its own: `From<bool>` and `PartialEq` as supertraits would shut out foreign types, and types whose `==` means less.
    /// What is made of a bit.
    fn of_bit(value: bool) -> Self
        ensures { result ≡ bit value };

    /// Whether both are the same.
    fn same(self, other: Self) -> bool
        ensures { Decides result (self ≡ other) };

    /// The function of a gate of that kind, with as many pins as there are values.
    fn gate_value(library: &L, kind: usize, pins: &[Self]) -> Self
        ensures { result ≡ give (gate_function (L.GateLibrary.kinds library.now) kind) pins.now };
}

impl<L: GateLibrary> Level<L> for bool {
    ghost bit = { λ b. b };

    ghost give = { λ f bits. f bits };

    fn of_bit(value: bool) -> bool {
        value
    }

    fn same(self, other: bool) -> bool {
        self == other
    }

    fn gate_value(library: &L, kind: usize, pins: &[bool]) -> bool {
        library.value(kind, pins).unwrap_or(false)
    }
}

impl<L: GateLibrary> Level<L> for Mark {
    ghost bit = { settled };

    ghost give = { extended };

    fn of_bit(value: bool) -> Mark {
        Mark::from(value)
    }

    fn same(self, other: Mark) -> bool {
        self == other
    }

    fn gate_value(library: &L, kind: usize, pins: &[Mark]) -> Mark {
        library.extension(kind, pins).unwrap_or(Mark::Zero)
    }
}
