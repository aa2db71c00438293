//! Running both passes and reading the marks.
ghost use Rattle.std.specs.Prelude.{◌≡◌, ◌≤◌, true, length, is_some};
ghost use Rattle.gates.specs.Told.{told_by, left_by};
ghost use Rattle.sheet.specs.Writing.{overwritten};
ghost use Rattle.circuit.specs.Changes.{has_signal};
ghost use Rattle.record.specs.Views.{board_of};
ghost use Rattle.record.specs.Answers.{told};
ghost use Rattle.record.specs.Calls.{unstable_stop, is_unstable, run_stop, marks_stop, mark_pair, sheet_stop, sheet_of};
ghost use Rattle.record.specs.Runs.{RunOrStop};

use super::Record;
use crate::Refusal;
use circuit::Signal;
use gates::{GateLibrary, Mark};
use sheet::{LONGEST, write_sheet};

impl<L: GateLibrary> Record<L> {
    /// Whether a signal's value differs from what it is driven to.
    pub fn unstable(&self, signal: Signal) -> Result<bool, Refusal>
        ensures { let b = board_of L.GateLibrary.kinds self.now in told result ≡ told_by (unstable_stop b signal) (is_unstable b signal) }
    {
        self.place(signal)?;
        self.check_joined()?;
        Ok(self.differs(signal))
    }

    // Whether the value of a signal that is there differs from what it is driven to.
    pub(crate) fn differs(&self, signal: Signal) -> bool
        requires { has_signal self.now.circuit signal ≡ true }
        ensures { result ≡ is_unstable (board_of L.GateLibrary.kinds self.now) signal }
    {
        let unstable = self.tables.unstable(&self.library, &self.values, signal);
        unstable.unwrap()
    }

    /// Works out both passes: the first-pass steps, the second-pass steps and the open count.
    pub fn run(&mut self) -> Result<(usize, usize, usize), Refusal>
        ensures { let b = board_of L.GateLibrary.kinds self.old in RunOrStop (run_stop b) b (told result) (board_of L.GateLibrary.kinds self.new) }
    {
        self.check_joined()?;
        self.tables.kept();
        Ok(self.marking.run(&self.tables, &self.library, &self.values))
    }

    /// A signal's first and second mark.
    pub fn marks(&self, signal: Signal) -> Result<(Mark, Mark), Refusal>
        ensures { let b = board_of L.GateLibrary.kinds self.now in told result ≡ told_by (marks_stop b signal) (mark_pair b signal) }
    {
        let place = self.place(signal)?;
        let (firsts, seconds) = self.marking.standing().ok_or(Refusal::NoMarks)?;
        Ok((firsts[place], seconds[place]))
    }

    /// Writes the sheet into the buffer and answers its length; the bytes behind it stay.
    pub fn sheet(&self, buffer: &mut [u8]) -> Result<usize, Refusal>
        ensures answer { let b = board_of L.GateLibrary.kinds self.now in told result ≡ told_by (sheet_stop b (length buffer.old)) (length (sheet_of b)) }
        ensures buffer { let b = board_of L.GateLibrary.kinds self.now in buffer.new ≡ left_by (sheet_stop b (length buffer.old)) buffer.old (overwritten (sheet_of b) buffer.old) }
        ensures few { let b = board_of L.GateLibrary.kinds self.now in is_some b.marks ≡ true → length (sheet_of b) ≤ LONGEST }
    {
        self.tables.kept();
        let (firsts, seconds) = self.marking.standing().ok_or(Refusal::NoMarks)?;
        let inputs = self.tables.input_count();
        let gates = self.tables.gate_count();
        write_sheet(inputs, gates, firsts, seconds, buffer).ok_or(Refusal::ShortBuffer)
    }
}
