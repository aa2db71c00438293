//! A checked list, entered line by line: the record refuses none of its calls, as the boards in the contracts say.
ghost use Rattle.std.specs.Prelude.{◌≡◌, ℕ, ◌+◌, ◌<◌, ◌≤◌, List, [], length, take, drop};
ghost use Rattle.gate_list_format.specs.Lists.{GateList, Input, Gate, LawfulInput, LawfulGate, wires, write_input, write_gate};
ghost use Rattle.gate_list.specs.Laws.{gate_number};
ghost use Rattle.record.specs.Boards.{opened};
ghost use Rattle.list_record.specs.Entering.{list_board};
ghost use Rattle.list_record.specs.ListBoards.{list_kinds, pins_in, board_of_list};
ghost use Rattle.list_record.specs.Replay.{Lists, GateStands, inputs_in, gates_in, pins_joined, pins_before, InputEntered, GateEntered, PinEntered};

use crate::ListRecord;
use circuit::Signal;
use gate_list_lookup::{gate_at, input_at, pin_at};
use gate_list_names::{GateEntry, Names};

// No `else { return }` or `let _ =` hides a refusal: a checked list has its lines, and the record takes each call, as the contracts say.
// The record and the names stand side by side: each method of one struct with both would also have to say that the names stay.

/// Enters the list that the tables hold into a newly opened record.
pub fn enter_list(board: &mut ListRecord, names: Names<'_>)
    requires { length names.gates.now ≤ 96 }
    ensures { (b : GateList) → Lists names.entry b → list_board board.old ≡ opened list_kinds → list_board board.new ≡ board_of_list b }
{
    enter_inputs(board, names);
    enter_gates(board, names);
    join_gates(board, names);
}

/// All inputs, with their values.
fn enter_inputs(board: &mut ListRecord, names: Names<'_>)
    ensures { (b : GateList) → Lists names.entry b → list_board board.old ≡ inputs_in b 0 → list_board board.new ≡ inputs_in b (length b.inputs) }
{
    for (number, entry) in names.inputs.iter().enumerate() {
        enter_input(board, names.text, number, entry.place);
    }
}

/// All gates, with their values; their pins are joined later, as sources may come later.
fn enter_gates(board: &mut ListRecord, names: Names<'_>)
    ensures { (b : GateList) → Lists names.entry b → list_board board.old ≡ gates_in b 0 → list_board board.new ≡ gates_in b (length b.gates) }
{
    for (number, entry) in names.gates.iter().enumerate() {
        enter_gate(board, names.text, number, *entry);
    }
}

/// Joins all pins, by gate and then by pin.
fn join_gates(board: &mut ListRecord, names: Names<'_>)
    requires { length names.gates.now ≤ 96 }
    ensures { (b : GateList) → Lists names.entry b → list_board board.old ≡ pins_joined b [] → list_board board.new ≡ pins_joined b (pins_in b.gates) }
{
    let mut wire = 0;
    for (gate, entry) in names.gates.iter().enumerate() {
        wire = join_pins(board, names, gate, entry.place, wire);
    }
}

/// Joins the pins of the gate whose line is at a place, and numbers their wires from a number on; the number behind them.
fn join_pins(
    board: &mut ListRecord,
    names: Names<'_>,
    gate: usize,
    place: usize,
    first: usize,
) -> usize
    requires { first < 100000 }
    ensures few { result ≤ first + 255 }
    ensures next { (b : GateList) → GateStands b names.entry.text.now gate place → result ≡ first + length (gate_number b gate).pins }
    ensures after { (b : GateList) → Lists names.entry b → GateStands b names.entry.text.now gate place → first ≡ wires (take gate b.gates) → list_board board.old ≡ pins_joined b (pins_before b gate 0) → list_board board.new ≡ pins_joined b (pins_before b gate (length (gate_number b gate).pins)) }
{
    let Some(fields) = gate_at(names.text, place) else {
        return first
    };
    let pins = usize::from(fields.pin_count);
    for pin in 0..pins {
        join_pin(board, names, gate, place, pin, first + pin);
    }
    first + pins
}

/// Joins one pin to the source that its line names.
fn join_pin(
    board: &mut ListRecord,
    names: Names<'_>,
    gate: usize,
    place: usize,
    pin: usize,
    wire: usize,
)
    ensures { (b : GateList) → Lists names.entry b → GateStands b names.entry.text.now gate place → pin < length (gate_number b gate).pins → wire ≡ wires (take gate b.gates) + pin → list_board board.old ≡ pins_joined b (pins_before b gate pin) → list_board board.new ≡ pins_joined b (pins_before b gate (pin + 1)) }
{
    let Some(fields) = pin_at(names.text, place, pin) else {
        return
    };
    let Some(source) = names.source(fields.source) else {
        return
    };
    tie(board, gate, pin, source.into(), wire, fields.start);
}

/// Enters the input whose line is at a place.
fn enter_input(board: &mut ListRecord, text: &[u8], number: usize, place: usize)
    ensures { (i : Input) (rest : List ℕ) → LawfulInput i → drop place text.now ≡ write_input i rest → InputEntered (list_board board.old) number i.applied i.start (list_board board.new) }
{
    let Some(fields) = input_at(text, place) else {
        return
    };
    let _ = board.add_input();
    let _ = board.set_input(number, fields.applied);
    let _ = board.set_signal(Signal::Input(number), fields.start);
}

/// Enters the gate of an entry, with no pin joined.
fn enter_gate(board: &mut ListRecord, text: &[u8], number: usize, entry: GateEntry)
    ensures { (g : Gate) (rest : List ℕ) → LawfulGate g → drop entry.place text.now ≡ write_gate g rest → GateEntered (list_board board.old) number entry.kind g.start (list_board board.new) }
{
    let Some(fields) = gate_at(text, entry.place) else {
        return
    };
    let _ = board.add_gate(entry.kind);
    let _ = board.set_signal(Signal::Gate(number), fields.start);
}

/// Joins a pin and sets its wire.
fn tie(board: &mut ListRecord, gate: usize, pin: usize, source: Signal, wire: usize, start: u8)
    ensures { PinEntered (list_board board.old) gate pin source wire start (list_board board.new) }
{
    let _ = board.join(gate, pin, source);
    let _ = board.set_signal(Signal::Wire(wire), start);
}
