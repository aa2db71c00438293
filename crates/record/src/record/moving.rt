//! Moving on: firing unstable signals by hand, and adopting what the races came to.
ghost use Rattle.std.specs.Prelude.{◌≡◌, [], ◌∷◌, map, length, OnOk};
ghost use Rattle.std.specs.List.{AllByRecursion};
ghost use Rattle.gates.specs.Told.{told_by, left_by, first_stop};
ghost use Rattle.circuit.specs.Circuits.{Has, size};
ghost use Rattle.races.specs.Races.{Race};
ghost use Rattle.races.specs.Fires.{fired};
ghost use Rattle.record.specs.Views.{board_of};
ghost use Rattle.record.specs.Answers.{told};
ghost use Rattle.record.specs.Moves.{entry_stop, entry_stops, listed, fire_stop, signals_fired, FireRaces, adopt_stop, adopted, settled_value};

use super::Record;
use crate::Refusal;
use crate::marks::count_open;
use circuit::Signal;
use circuit::tables::Tables;
use gates::{GateLibrary, Mark};

impl<L: GateLibrary> Record<L> {
    /// Complements each signal of the list, which is one race step.
    pub fn fire(&mut self, signals: &[Signal]) -> Result<(), Refusal>
        ensures answer { told result ≡ told_by (fire_stop (board_of L.GateLibrary.kinds self.old) signals.now) tt }
        ensures after { let b = board_of L.GateLibrary.kinds self.old in board_of L.GateLibrary.kinds self.new ≡ left_by (fire_stop b signals.now) b (signals_fired b signals.now) }
        ensures race { let b = board_of L.GateLibrary.kinds self.old in OnOk result (Race b.kinds b.circuit b.state self.new.state) }
    {
        self.check_joined()?;
        if signals.is_empty() {
            return Err(Refusal::EmptyList);
        }
        self.check_entries(signals)?;
        complement_all(&self.tables, &mut self.values, signals);
        self.marking.withdraw();
        Ok(())
    }

    // Refuses the first entry, in order, that cannot be fired.
    fn check_entries(&self, signals: &[Signal]) -> Result<(), Refusal>
        ensures { let b = board_of L.GateLibrary.kinds self.now in told result ≡ told_by (first_stop (entry_stops b [] signals.now)) tt }
    {
        for (number, signal) in signals.iter().enumerate() {
            self.check_entry(&signals[..number], *signal)?;
        }
        Ok(())
    }

    // Refuses a signal that cannot be fired with the earlier ones.
    fn check_entry(&self, earlier: &[Signal], signal: Signal) -> Result<(), Refusal>
        ensures { let b = board_of L.GateLibrary.kinds self.now in told result ≡ told_by (entry_stop b earlier.now signal) tt }
    {
        self.place(signal)?;
        if stands_in(earlier, signal) {
            return Err(Refusal::Repeated);
        }
        if !self.differs(signal) {
            return Err(Refusal::Stable);
        }
        Ok(())
    }

    /// Makes the second marks the values.
    pub fn adopt(&mut self) -> Result<(), Refusal>
        ensures answer { told result ≡ told_by (adopt_stop (board_of L.GateLibrary.kinds self.old)) tt }
        ensures after { let b = board_of L.GateLibrary.kinds self.old in board_of L.GateLibrary.kinds self.new ≡ left_by (adopt_stop b) b (adopted b) }
    {
        let (_, seconds) = self.marking.standing().ok_or(Refusal::NoMarks)?;
        if count_open(seconds) > 0 {
            return Err(Refusal::StillOpen);
        }
        copy_settled(seconds, &mut self.values);
        self.marking.withdraw();
        Ok(())
    }
}

// By `any`: with `contains`, firing a long list takes a fifth more time.
fn stands_in(signals: &[Signal], signal: Signal) -> bool
    ensures { result ≡ listed signals.now signal }
{
    signals.iter().any(|entry| *entry == signal)
}

fn complement_all(tables: &Tables, values: &mut [bool], signals: &[Signal])
    requires there { AllByRecursion (Has tables.now) signals.now }
    requires whole { length values.old ≡ size tables.now }
    ensures { values.new ≡ fired tables.now signals.now values.old }
{
    for signal in signals {
        complement(tables, values, *signal);
    }
}

fn complement(tables: &Tables, values: &mut [bool], signal: Signal)
    requires there { Has tables.now signal }
    requires whole { length values.old ≡ size tables.now }
    ensures { values.new ≡ fired tables.now (signal ∷ []) values.old }
{
    let place = tables.place(signal).unwrap();
    values[place] = !values[place];
}

// By place: of what is written through a `zip` with `iter_mut` the proof learns nothing.
fn copy_settled(marks: &[Mark], values: &mut [bool])
    requires { length values.old ≡ length marks.now }
    ensures { values.new ≡ map settled_value marks.now }
{
    for (place, mark) in marks.iter().enumerate() {
        values[place] = settled_value(*mark);
    }
}

fn settled_value(mark: Mark) -> bool
    ensures { result ≡ settled_value mark }
{
    mark == Mark::One
}

/// Theorem: what is fired is a race step, and every race step in which a signal changes can be fired.
pub fn fire_races()
    ensures { FireRaces }
{}
