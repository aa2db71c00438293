//! Gate lists onto a record: an accepted list replaces what the record held.
#![tactic(auto)]

ghost use Rattle.std.specs.Prelude.{◌≡◌, length};
ghost use Rattle.gate_list_format.specs.Reading.{admitted};
ghost use Rattle.gate_list.specs.Tables.{input_table, gate_table};
ghost use Rattle.list_record.specs.Entering.{list_board, told, verdict};
ghost use Rattle.list_record.specs.ListBoards.{PinsJoined, board_after};

use gate_list::{Refusal, check_list};
use gate_list_names::{GateEntry, InputEntry, Names};
use gates::Complement;
use plain_gates::PlainGates;
use record::record::Record;

mod replay;

/// A record over the complementing library on plain gates.
pub type ListRecord = Record<Complement<PlainGates>>;

/// Reads a gate list onto the record, and its names and kinds into the tables.
///
/// After a refused list the record is as newly opened and the tables are blank; at number 14 they stay as they were.
pub fn read_list(
    record: &mut ListRecord,
    text: &[u8],
    inputs: &mut [InputEntry],
    gates: &mut [GateEntry],
) -> Result<(), Refusal>
    ensures answer { told result ≡ verdict (admitted (length inputs.old) (length gates.old) text.now) }
    ensures board { list_board «record».new ≡ board_after (admitted (length inputs.old) (length gates.old) text.now) }
    ensures inputs { inputs.new ≡ input_table inputs.old (admitted (length inputs.old) (length gates.old) text.now) }
    ensures gates { gates.new ≡ gate_table gates.old (admitted (length inputs.old) (length gates.old) text.now) }
{
    record.clear();
    let (n, r) = check_list(text, inputs, gates)?;
    let names = Names {
        text,
        inputs: &inputs[..n],
        gates: &gates[..r],
    };
    replay::enter_list(record, names);
    Ok(())
}

/// Theorem: every pin of an accepted list is joined, so that its record can run.
pub fn pins_joined()
    ensures { PinsJoined }
{}
