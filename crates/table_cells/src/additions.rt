//! Opening a library of cells and adding to it.
ghost use Rattle.std.specs.Prelude.{◌≡◌, [], ◌∷◌, ◌++◌, length, IfOk};
ghost use Rattle.gates.specs.Told.{told_by, left_by};
ghost use Rattle.table_cells.specs.Cells.{cell_kind};
ghost use Rattle.table_cells.specs.Table.{kinds_in, cell_stop, told_cell};

use crate::cell::Cell;
use crate::{CellRefusal, TableCells};
use std::alloc::{AllocError, Global};

const MAX_CELLS: usize = 32;

impl TableCells {
    /// A library of no cells, with memory for all that it may come to hold.
    pub fn open(heap: Global) -> Result<TableCells, AllocError>
        ensures { IfOk result (λ t. kinds_in t ≡ []) }
    {
        Ok(TableCells {
            cells: Vec::with_capacity(heap, MAX_CELLS)?,
        })
    }

    /// Adds a cell and answers its kind number.
    pub fn add(&mut self, pins: usize, truth: u64) -> Result<usize, CellRefusal>
        ensures answer { told_cell result ≡ told_by (cell_stop (kinds_in self.old) pins) (length (kinds_in self.old)) }
        ensures kinds { kinds_in self.new ≡ left_by (cell_stop (kinds_in self.old) pins) (kinds_in self.old) (kinds_in self.old ++ cell_kind pins truth ∷ []) }
    {
        let kind = self.cells.len();
        if kind >= MAX_CELLS || !(1..=6).contains(&pins) {
            return Err(CellRefusal::OutsideLimits);
        }
        self.cells.push_reserved(Cell { pins, truth });
        Ok(kind)
    }
}
