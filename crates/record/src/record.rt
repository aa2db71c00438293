//! What a record holds and keeps.
ghost use Rattle.circuit.specs.Wiring.{Kept};
ghost use Rattle.record.specs.Boards.{Filled, Sound};
ghost use Rattle.record.specs.Views.{board_of};

use crate::marks::Marking;
use circuit::tables::Tables;
use gates::GateLibrary;
use std::marker::Model;

mod checks;
pub mod clearing;
pub mod entering;
pub mod marking;
pub mod moving;

/// A circuit record over a gate library.
#[derive(Drop)]
pub struct Record<L> {
    library: L,
    tables: Tables,
    values: Vec<bool>,
    marking: Marking,
}

impl<L> Model for Record<L> {
    ghost use Rattle.std.specs.Prelude.{◌≤◌, vec_items, vec_capacity};
    ghost use Rattle.record.specs.Boards.{Held, Filled};

    // The library stands for its kinds: these are functions, and a model's value can hold none.
    ghost Value = { Held L };

    ghost view = { λ r. record { library = r.library; circuit = r.tables; state = vec_items r.values; marks = r.marking } };

    ghost invariant = { λ r. Filled r.tables (vec_items r.values) r.marking × (512 ≤ vec_capacity r.values) };
}

impl<L> Record<L> {
    /// Theorem: what every record keeps, whatever stands for its library.
    pub fn filled(&self)
        ensures kept { Kept self.now.circuit }
        ensures filled { Filled self.now.circuit self.now.state self.now.marks }
    {
        self.tables.kept();
    }
}

impl<L: GateLibrary> Record<L> {
    /// Theorem: what holds of every record's board.
    pub fn sound(&self)
        ensures { Sound (board_of L.GateLibrary.kinds self.now) }
    {
        self.filled();
    }
}
