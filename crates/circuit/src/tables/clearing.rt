//! Taking everything out of the tables again.
ghost use Rattle.std.specs.Prelude.{◌≡◌};
ghost use Rattle.circuit.specs.Wiring.{Kept};
ghost use Rattle.circuit.specs.Changes.{empty};

use super::Tables;

impl Tables {
    /// Takes all signals away; the memory stays reserved.
    pub fn clear(&mut self)
        ensures { self.new ≡ empty }
    {
        self.applied.clear();
        self.gates.clear();
        self.sources.clear();
    }
}
