//! Twelve worked boards, as one statement over one list.
#![tactic(auto)]

ghost use Rattle.worked_boards.specs.Boards.{BoardsAsSaid};

/// Theorem: the definitions give every worked board the counts and marks that are listed for it.
pub fn boards_as_said()
    ensures { BoardsAsSaid }
{}
