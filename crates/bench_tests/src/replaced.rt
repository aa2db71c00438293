//! What a record and the name tables hold after a list.
use super::*;
use gate_list_names::{GateEntry, InputEntry};
use gates::Complement;
use list_record::read_list;
use plain_gates::PlainGates;
use record::Refusal;
use record::record::Record;
use std::test::Fail;

const LATCH: &[u8] =
    b"inputs 2\nset 0 1\nreset 0 1\ngates 2\nq nor 2 0 set 1 qn 0\nqn nor 2 0 reset 1 q 0\n";

#[test]
fn an_accepted_list_replaces_the_record(rt: HostRuntime) -> Result<(), Fail> {
    let mut board = Record::open(rt.alloc(), Complement { below: PlainGates })?;
    let mut inputs = [InputEntry::default(); 40];
    let mut gates = [GateEntry::default(); 100];
    inputs[39].place = 7;
    assert!(rt; read_list(&mut board, LATCH, &mut inputs[..], &mut gates[..]).is_ok());
    assert_eq!(rt; board.run(), Ok((4, 2, 4)));
    assert!(rt; inputs[1].place == 17 && inputs[39].place == 0 && gates[1].kind == 19);
    assert!(rt;
        read_list(
            &mut board,
            b"inputs 0\ngates 0\n",
            &mut inputs[..],
            &mut gates[..],
        )
        .is_ok()
    );
    let mut sheet = [0u8; 100];
    assert_eq!(rt; board.sheet(&mut sheet[..]), Err(Refusal::NoMarks));
    assert_eq!(rt; board.run(), Ok((0, 0, 0)));
    assert!(rt; inputs[1].length == 0 && gates[1].kind == 0);
    Ok(())
}

#[test]
fn a_refused_list_leaves_an_empty_record(rt: HostRuntime) -> Result<(), Fail> {
    let mut board = Record::open(rt.alloc(), Complement { below: PlainGates })?;
    let mut inputs = [InputEntry::default(); 32];
    let mut gates = [GateEntry::default(); 96];
    assert!(rt; read_list(&mut board, LATCH, &mut inputs[..], &mut gates[..]).is_ok());
    assert!(rt; read_list(&mut board, b"inputs 1\n", &mut inputs[..], &mut gates[..]).is_err());
    assert_eq!(rt; board.run(), Ok((0, 0, 0)));
    assert!(rt; inputs[0].length == 0 && gates[0].length == 0);
    Ok(())
}

// Tables that are too short stay as they were, and the record is emptied all the same.
#[test]
fn short_tables_stay(rt: HostRuntime) -> Result<(), Fail> {
    let mut board = Record::open(rt.alloc(), Complement { below: PlainGates })?;
    board.add_input()?;
    let mut inputs = [InputEntry {
        place: 9,
        length: 3,
    }; 32];
    let mut gates = [GateEntry {
        place: 35,
        length: 1,
        kind: 19,
    }; 95];
    assert!(rt; read_list(&mut board, LATCH, &mut inputs[..], &mut gates[..]).is_err());
    assert!(rt; inputs[31].place == 9 && gates[94].kind == 19);
    assert_eq!(rt; board.run(), Ok((0, 0, 0)));
    Ok(())
}
