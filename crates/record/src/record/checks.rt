//! The checks that several calls make.
ghost use Rattle.std.specs.Prelude.{◌≡◌, Ok, Err, if◌then◌else◌};
ghost use Rattle.gates.specs.Told.{told_by};
ghost use Rattle.circuit.specs.Circuits.{place};
ghost use Rattle.circuit.specs.Changes.{has_signal};
ghost use Rattle.record.specs.Views.{board_of};
ghost use Rattle.record.specs.Answers.{told};
ghost use Rattle.record.specs.Calls.{is_bit, bit_of, unjoined_stop};

use super::Record;
use crate::Refusal;
use circuit::Signal;
use gates::GateLibrary;

impl<L: GateLibrary> Record<L> {
    /// Where a signal stands in sheet order.
    pub(crate) fn place(&self, signal: Signal) -> Result<usize, Refusal>
        ensures { result ≡ (if has_signal self.now.circuit signal then Ok (place self.now.circuit signal) else Err Refusal.Absent) }
    {
        self.tables.place(signal).ok_or(Refusal::Absent)
    }

    /// Refuses an unjoined pin, the first by gate and then by pin.
    pub(crate) fn check_joined(&self) -> Result<(), Refusal>
        ensures { told result ≡ told_by (unjoined_stop (board_of L.GateLibrary.kinds self.now)) tt }
    {
        match self.tables.first_unjoined() {
            Some((gate, pin)) => Err(Refusal::Unjoined(gate, pin)),
            None => Ok(()),
        }
    }
}

/// The bit that comes as a number.
// Callers give numbers and no `bool`, so that one that is neither 0 nor 1 can be refused.
pub(crate) fn bit_of(number: u8) -> Result<bool, Refusal>
    ensures { result ≡ (if is_bit number then Ok (bit_of number) else Err Refusal.NotABit) }
{
    match number {
        0 => Ok(false),
        1 => Ok(true),
        _ => Err(Refusal::NotABit),
    }
}
