//! The marks of a circuit, in memory that is reserved when a record is opened.
ghost use Rattle.std.specs.Prelude.{◌≡◌, ◌≤◌, length, IfOk, MatchOption, vec_len, vec_capacity};
ghost use Rattle.circuit.specs.Circuits.{size};
ghost use Rattle.circuit.specs.Passes.{open_count};
ghost use Rattle.record.specs.Runs.{Marked};

use circuit::reserved::push_all;
use circuit::tables::Tables;
use circuit::tables::changes::{MAX_GATES, MAX_INPUTS, MAX_WIRES};
use gates::{GateLibrary, Mark};
use std::alloc::{AllocError, Global};
use std::marker::Model;

/// The most signals that a circuit has.
pub(crate) const MAX_SIGNALS: usize = MAX_INPUTS + MAX_GATES + MAX_WIRES;

/// The first and the second marks, as long as they stand.
#[derive(Drop)]
pub(crate) struct Marking {
    // Two lists and not one of pairs: each pass reads one list of marks and writes another.
    firsts: Vec<Mark>,
    seconds: Vec<Mark>,
    spare: Vec<Mark>,
    // A flag beside its values: the memory stays reserved while no marks stand, which an `Option` of the lists would give back.
    stand: bool,
}

impl Model for Marking {
    ghost use Rattle.std.specs.Prelude.{◌≤◌, List, Some, None, Option, cond, vec_items, vec_capacity};
    ghost use Rattle.gates.specs.declared.Mark.{Mark};

    ghost Value = { Option (List Mark × List Mark) };

    ghost view = { λ m. cond m.stand (Some (vec_items m.firsts, vec_items m.seconds)) None };

    ghost invariant = { λ m. (512 ≤ vec_capacity m.firsts) × (512 ≤ vec_capacity m.seconds) × (512 ≤ vec_capacity m.spare) };
}

impl Marking {
    /// Room for the marks of the largest circuit; none stand.
    pub(crate) fn open(heap: Global) -> Result<Marking, AllocError>
        ensures { IfOk result (λ m. m ≡ None) }
    {
        Ok(Marking {
            firsts: Vec::with_capacity(heap, MAX_SIGNALS)?,
            seconds: Vec::with_capacity(heap, MAX_SIGNALS)?,
            spare: Vec::with_capacity(heap, MAX_SIGNALS)?,
            stand: false,
        })
    }

    /// The first and the second marks, if they stand.
    pub(crate) fn standing(&self) -> Option<(&[Mark], &[Mark])>
        ensures { MatchOption result (self.now ≡ None) (λ marks. self.now ≡ Some (marks.0.now, marks.1.now)) }
    {
        if self.stand {
            Some((&self.firsts, &self.seconds))
        } else {
            None
        }
    }

    /// Lets the marks stand no longer.
    pub(crate) fn withdraw(&mut self)
        ensures { self.new ≡ None }
    {
        self.stand = false;
    }

    /// Works out both passes from the values: the first-pass steps, the second-pass steps and the open count.
    pub(crate) fn run<L: GateLibrary>(
        &mut self,
        tables: &Tables,
        library: &L,
        values: &[bool],
    ) -> (usize, usize, usize)
        requires few { size tables.now ≤ 512 }
        requires valued { length values.now ≡ size tables.now }
        ensures { Marked (L.GateLibrary.kinds library.now) tables.now values.now result self.new }
    {
        let size = tables.size();
        blank(&mut self.firsts, size);
        blank(&mut self.seconds, size);
        blank(&mut self.spare, size);
        let (first_steps, second_steps) = tables
            .run(
                library,
                values,
                &mut self.firsts,
                &mut self.seconds,
                &mut self.spare,
            )
            .unwrap();
        self.stand = true;
        (first_steps, second_steps, count_open(&self.seconds))
    }
}

// Makes room for a mark of each signal, in reserved memory.
fn blank(marks: &mut Vec<Mark>, size: usize)
    requires { size ≤ vec_capacity marks.old }
    ensures len { vec_len marks.new ≡ size }
    ensures capacity { vec_capacity marks.new ≡ vec_capacity marks.old }
{
    marks.clear();
    push_all(marks, size, Mark::Zero).unwrap();
}

/// How many marks are unknown.
pub(crate) fn count_open(marks: &[Mark]) -> usize
    ensures { result ≡ open_count marks.now }
{
    marks.iter().filter(|mark| **mark == Mark::Unknown).count()
}
