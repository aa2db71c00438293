//! What a library of cells answers.
ghost use Rattle.std.specs.Prelude.{◌≡◌, length, IfSome};
ghost use Rattle.std.specs.Option.{option_map};
ghost use Rattle.std.specs.List.{slice_get};
ghost use Rattle.gates.specs.Kinds.{given_by};
ghost use Rattle.table_cells.specs.Cells.{output_by};
ghost use Rattle.table_cells.specs.Held.{kind_of};
ghost use Rattle.table_cells.specs.Table.{kinds_in};
ghost use Rattle.std.proofs.Common.{arith};
ghost use Rattle.table_cells.specs.Tabled.{lawful_table};

use crate::TableCells;
use crate::cell::Cell;
use gates::{GateLibrary, Mark};

impl GateLibrary for TableCells {
    ghost kinds = { kinds_in };

    ghost lawful = { λ t. lawful_table t.cells.items (omega arith) };

    fn kind_count(&self) -> usize {
        self.cells.len()
    }

    fn pin_count(&self, kind: usize) -> Option<usize> {
        Some(self.cell(kind)?.pins)
    }

    fn value(&self, kind: usize, bits: &[bool]) -> Option<bool> {
        Some(self.cell_for(kind, bits)?.value(bits))
    }

    fn extension(&self, kind: usize, marks: &[Mark]) -> Option<Mark> {
        Some(self.cell_for(kind, marks)?.extension(marks))
    }
}

impl TableCells {
    fn cell(&self, kind: usize) -> Option<Cell>
        ensures { option_map kind_of result ≡ slice_get (kinds_in self.now) kind }
    {
        self.cells.get(kind).copied()
    }

    /// The cell of a kind, if it has as many pins as there are entries.
    fn cell_for<A>(&self, kind: usize, entries: &[A]) -> Option<Cell>
        ensures cell { option_map (λ c. output_by c.truth) result ≡ given_by (λ f _. f) (slice_get (kinds_in self.now) kind) entries.now }
        ensures pins { IfSome result (λ c. length entries.now ≡ c.pins) }
    {
        self.cell(kind).filter(|cell| cell.pins == entries.len())
    }
}
