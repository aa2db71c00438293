//! The two passes of marks.
ghost use Rattle.std.specs.Prelude.{◌≡◌, ℕ, ◌<◌, map, length, MatchOption, slice_index_or};
ghost use Rattle.gates.specs.Marks.{settled};
ghost use Rattle.gates.specs.declared.Mark.{Mark};
ghost use Rattle.circuit.specs.Circuits.{size};
ghost use Rattle.circuit.specs.Passes.{next, stepped, Ends, Shrinks, Run, RunExists, RunUnique, StepsFew};

use crate::tables::Tables;
use crate::tables::excitations::Moment;
use gates::{GateLibrary, Mark};

/// The first pass, in which marks rise, or the second, in which they settle again.
// The passes have names, since the definition of a run and the theorems about it speak of both.
#[derive(Clone, Copy)]
pub enum Pass {
    First,
    Second,
}

impl Pass {
    /// A signal's mark after a step, by its mark before and its excitation.
    pub fn next(self, mark: Mark, driven: Mark) -> Mark
        ensures { result ≡ next self mark driven }
    {
        match self {
            Pass::First => mark.lub(driven),
            Pass::Second => driven,
        }
    }
}

impl Tables {
    /// Both passes from a start state: the counts of steps that changed something, with the marks in `first` and `second`.
    /// Nothing, and no mark is written, unless there is one entry for each signal everywhere.
    pub fn run<L: GateLibrary>(
        &self,
        library: &L,
        start: &[bool],
        first: &mut [Mark],
        second: &mut [Mark],
        spare: &mut [Mark],
    ) -> Option<(usize, usize)>
        ensures { MatchOption result
            (((length start.now ≡ size self.now) × (length first.old ≡ size self.now) × (length second.old ≡ size self.now) × (length spare.old ≡ size self.now) → ⊥)
            × (first.new ≡ first.old) × (second.new ≡ second.old) × (spare.new ≡ spare.old))
            (λ steps. Run (L.GateLibrary.kinds library.now) self.now start.now steps.0 first.new steps.1 second.new) }
    {
        let size = self.size();
        if start.len() != size
            || first.len() != size
            || second.len() != size
            || spare.len() != size
        {
            return None;
        }
        settle_all(start, first);
        let network = Network {
            tables: self,
            library,
        };
        Some(network.both_passes(first, second, spare))
    }
}

// The settled marks of bits.
fn settle_all(bits: &[bool], marks: &mut [Mark])
    requires { length marks.old ≡ length bits.now }
    ensures { marks.new ≡ map settled bits.now }
{
    fill_by(marks, |i| Mark::from(bits[i]));
}

// The tables of a circuit with the library of its gates.
#[derive(Drop)]
struct Network<'a, L> {
    tables: &'a Tables,
    library: &'a L,
}

impl<'a, L: GateLibrary> Network<'a, L> {
    // Both passes from the marks in `first`: the step counts.
    // Each of these functions asks for the length of its lists: they are lent anew at every call, in another order.
    fn both_passes(
        &self,
        first: &mut [Mark],
        second: &mut [Mark],
        spare: &mut [Mark],
    ) -> (usize, usize)
        requires first { length first.old ≡ size self.now.tables.now }
        requires second { length second.old ≡ size self.now.tables.now }
        requires spare { length spare.old ≡ size self.now.tables.now }
        ensures first { Ends (stepped Pass.First (L.GateLibrary.kinds self.now.library.now) self.now.tables.now) first.old result.0 first.new }
        ensures second { Ends (stepped Pass.Second (L.GateLibrary.kinds self.now.library.now) self.now.tables.now) first.new result.1 second.new }
    {
        let first_steps = self.settle(Pass::First, first, spare);
        second.copy_from_slice(first);
        let second_steps = self.settle(Pass::Second, second, spare);
        (first_steps, second_steps)
    }

    // Steps until one changes nothing, and answers how many changed something.
    // In line at both calls, so that no loop asks which pass it is in.
    #[inline(always)]
    fn settle(&self, pass: Pass, marks: &mut [Mark], spare: &mut [Mark]) -> usize
        requires marks { length marks.old ≡ size self.now.tables.now }
        requires spare { length spare.old ≡ size self.now.tables.now }
        requires shrinks { pass ≡ Pass.Second → Shrinks (L.GateLibrary.kinds self.now.library.now) self.now.tables.now marks.old }
        ensures { Ends (stepped pass (L.GateLibrary.kinds self.now.library.now) self.now.tables.now) marks.old result marks.new }
    {
        let mut steps = 0;
        loop {
            self.step(pass, marks, spare);
            if &*spare == &*marks {
                return steps;
            }
            marks.copy_from_slice(spare);
            steps += 1;
        }
    }

    // All signals from the marks before, section by section.
    fn step(&self, pass: Pass, before: &[Mark], after: &mut [Mark])
        requires before { length before.now ≡ size self.now.tables.now }
        requires after { length after.old ≡ size self.now.tables.now }
        ensures { after.new ≡ stepped pass (L.GateLibrary.kinds self.now.library.now) self.now.tables.now before.now }
    {
        let now = Moment {
            tables: self.tables,
            library: self.library,
            state: before,
        };
        let first_gate = self.tables.input_count();
        let gates = self.tables.gate_count();
        let first_wire = first_gate + gates;
        let (inputs, rest) = after.split_at_mut(first_gate);
        let (gates, wires) = rest.split_at_mut(gates);
        fill_by(inputs, |i| pass.next(before[i], now.input(i)));
        fill_by(gates, |g| pass.next(before[first_gate + g], now.gate(g)));
        fill_by(wires, |w| pass.next(before[first_wire + w], now.wire(w)));
    }
}

// Writes every mark, each by its number. A `zip` with the marks before would need no number, but the proof learns nothing of what is written through one.
fn fill_by<F: Fn(usize) -> Mark>(marks: &mut [Mark], mark_at: F)
    requires { (k : ℕ) → k < length marks.old → F.pre mark_at k }
    ensures { (k : ℕ) → k < length marks.new → F.post mark_at k (slice_index_or marks.new k Mark.Zero) }
{
    for (k, mark) in marks.iter_mut().enumerate() {
        *mark = mark_at(k);
    }
}

/// Theorem: every circuit has a run.
pub fn run_exists()
    ensures { RunExists }
{}

/// Theorem: a circuit has only one run.
pub fn run_unique()
    ensures { RunUnique }
{}

/// Theorem: both passes take few steps.
pub fn steps_few()
    ensures { StepsFew }
{}
