//! Table cells: a library of up to 32 gates, each given by its truth number.
#![tactic(auto)]

ghost use Rattle.std.specs.Prelude.{◌≤◌, vec_len, vec_capacity};
ghost use Rattle.table_cells.specs.Cells.{HighBitsIgnored};

use cell::Cell;

mod additions;
mod answers;
mod cell;
#[cfg(test)]
mod tests;

/// A library of cells, numbered in the order of their addition.
#[derive(Drop)]
pub struct TableCells {
    cells: Vec<Cell>,
    ghost reserved: { 32 ≤ vec_capacity cells },
    ghost few: { vec_len cells ≤ 32 },
}

/// Why a cell was not added.
#[derive(Clone, Copy, PartialEq, Eq, Debug)]
pub enum CellRefusal {
    /// It would be cell 33, or its pins are not 1 to 6.
    OutsideLimits,
}

/// Theorem: bits from 2 to the power of the pin count upwards do not matter.
pub fn high_bits_ignored()
    ensures { HighBitsIgnored }
{}
