//! The format of gate lists: its definition in `specs/`, and the laws that tie its parts together.
#![tactic(auto)]

ghost use Rattle.gate_list_format.specs.Examples.{Examples};
ghost use Rattle.gate_list_format.specs.Reading.{AcceptsExactly, RefusesFirst};

/// What reading answers to some texts
pub fn examples()
    ensures { Examples }
{}

/// Accepted are exactly the written texts of lawful lists
pub fn accepts_exactly()
    ensures { AcceptsExactly }
{}

/// A refusal is the first fault, and what stands before it has the form
pub fn refuses_first()
    ensures { RefusesFirst }
{}
