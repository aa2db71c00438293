//! Making a record as newly opened.
ghost use Rattle.std.specs.Prelude.{◌≡◌};
ghost use Rattle.record.specs.Boards.{opened};
ghost use Rattle.record.specs.Views.{board_of};

use super::Record;
use gates::GateLibrary;

impl<L: GateLibrary> Record<L> {
    /// Takes all signals and marks away; the library and the memory stay.
    pub fn clear(&mut self)
        ensures { board_of L.GateLibrary.kinds self.new ≡ opened (L.GateLibrary.kinds self.old.library) }
    {
        self.tables.clear();
        self.values.clear();
        self.marking.withdraw();
    }
}
