//! Examples of the record's calls: limits, the order of checks, dropped marks, the sheet's bytes, other libraries.
#![tactic(auto)]

use circuit::Signal;
use gates::GateLibrary;
use record::Refusal;
use record::record::Record;

#[cfg(test)]
mod tests;

/// Two NOR gates of the given kind, each fed by an input and by the other, with both inputs and their wires at 1.
pub fn enter_latch<L: GateLibrary>(board: &mut Record<L>, nor: usize) -> Result<(), Refusal> {
    for i in 0..2 {
        board.add_input()?;
        board.set_signal(Signal::Input(i), 1)?;
    }
    for _ in 0..2 {
        board.add_gate(nor)?;
    }
    for gate in 0..2 {
        board.join(gate, 0, Signal::Input(gate))?;
        board.join(gate, 1, Signal::Gate(1 - gate))?;
        board.set_signal(Signal::Wire(2 * gate), 1)?;
    }
    Ok(())
}
