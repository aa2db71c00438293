//! The bench's answer to a gate list: its sheet, or why it is refused, as bytes.
#![tactic(auto)]

ghost use Rattle.std.specs.Prelude.{◌≡◌, IfOk, None};
ghost use Rattle.circuit.specs.Wiring.{first_unjoined};
ghost use Rattle.gate_list.specs.Refusals.{refusal_number, refusal_line};
ghost use Rattle.list_record.specs.Entering.{list_board};
ghost use Rattle.bench_answer.specs.BenchBytes.{BenchBytes, SheetAfterRun, refusal_text};

use gate_list::{GATE_ENTRIES, INPUT_ENTRIES, Refusal};
use gate_list_names::{GateEntry, InputEntry};
use gates::Complement;
use list_record::{ListRecord, read_list};
use plain_gates::PlainGates;
use sheet::LONGEST;
use std::alloc::{AllocError, Global};

/// The sheet of a gate list after a run, or a line that says why it is refused.
pub fn bench(heap: Global, text: &[u8]) -> Result<Vec<u8>, AllocError>
    ensures { IfOk result (λ bytes. BenchBytes text.now bytes.items) }
{
    let mut board = ListRecord::open(heap, Complement { below: PlainGates })?;
    let mut inputs = [InputEntry::default(); INPUT_ENTRIES];
    let mut gates = [GateEntry::default(); GATE_ENTRIES];
    match read_list(&mut board, text, &mut inputs[..], &mut gates[..]) {
        Ok(()) => sheet_bytes(heap, &mut board),
        Err(refusal) => refusal_bytes(heap, refusal),
    }
}

/// The sheet of a record whose pins are all joined.
fn sheet_bytes(heap: Global, board: &mut ListRecord) -> Result<Vec<u8>, AllocError>
    requires { first_unjoined (list_board board.old).circuit ≡ None }
    ensures { IfOk result (λ bytes. SheetAfterRun (list_board board.old) bytes.items) }
{
    let Ok(_) = board.run() else { unreachable() };
    // The record writes into the caller's buffer and takes no memory; only the sheet's own bytes do.
    let mut buffer = [0u8; LONGEST];
    let Ok(length) = board.sheet(&mut buffer[..]) else {
        unreachable()
    };
    Vec::from_slice(heap, &buffer[..length])
}

/// A refusal as a line of text.
fn refusal_bytes(heap: Global, refusal: Refusal) -> Result<Vec<u8>, AllocError>
    ensures { IfOk result (λ bytes. bytes.items ≡ refusal_text (refusal_number refusal) (refusal_line refusal)) }
{
    Ok(format!(in heap; "{refusal}\n")?.into_bytes())
}
