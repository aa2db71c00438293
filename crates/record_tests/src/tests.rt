//! Examples, each asserted on the answers and on what the calls leave.
use super::*;
use gates::{Complement, Mark};
use plain_gates::PlainGates;
use std::test::Fail;
use table_cells::TableCells;

// Kinds of the complementing layer over plain gates, by their numbers in the library's list.
const NOT: usize = 1;

const AND_8: usize = 14;

const NOR_2: usize = 19;

const RELEASED: &[u8] = b"inputs 2\n?0\n?0\ngates 2\n??\n??\nwires 4\n?0\n??\n?0\n??\n";

#[test]
fn the_sheet_fits_its_buffer_exactly(rt: HostRuntime) -> Result<(), Fail> {
    let mut board = Record::open(rt.alloc(), Complement { below: PlainGates })?;
    enter_latch(&mut board, NOR_2)?;
    assert_eq!(rt; board.run(), Ok((4, 2, 4)));
    let mut short = [b'#'; 48];
    assert_eq!(rt; board.sheet(&mut short).map_err(Refusal::number), Err(11));
    assert_eq!(rt; short, [b'#'; 48]);
    let mut buffer = [b'#'; 60];
    assert_eq!(rt; board.sheet(&mut buffer), Ok(49));
    assert!(rt; buffer.starts_with(RELEASED));
    assert!(rt; buffer.ends_with(b"\n###########"));
    Ok(())
}

#[test]
fn the_first_check_refuses(rt: HostRuntime) -> Result<(), Fail> {
    let mut board = Record::open(rt.alloc(), Complement { below: PlainGates })?;
    assert_eq!(rt; board.add_gate(50).map_err(Refusal::number), Err(1));
    assert_eq!(rt;
        board.marks(Signal::Input(0)).map_err(Refusal::number),
        Err(3)
    );
    assert_eq!(rt; board.sheet(&mut []).map_err(Refusal::number), Err(9));
    board.add_input()?;
    board.add_gate(NOT)?;
    assert_eq!(rt;
        board.marks(Signal::Input(0)).map_err(Refusal::number),
        Err(9)
    );
    assert_eq!(rt;
        board.unstable(Signal::Wire(1)).map_err(Refusal::number),
        Err(3)
    );
    assert_eq!(rt;
        board.unstable(Signal::Input(0)),
        Err(Refusal::Unjoined(0, 0))
    );
    assert_eq!(rt; board.run(), Err(Refusal::Unjoined(0, 0)));
    assert_eq!(rt; board.set_input(1, 2).map_err(Refusal::number), Err(3));
    assert_eq!(rt; board.set_input(0, 2).map_err(Refusal::number), Err(4));
    assert_eq!(rt;
        board
            .set_signal(Signal::Gate(1), 2)
            .map_err(Refusal::number),
        Err(3)
    );
    assert_eq!(rt;
        board
            .set_signal(Signal::Gate(0), 2)
            .map_err(Refusal::number),
        Err(4)
    );
    assert_eq!(rt;
        board.join(0, 0, Signal::Wire(0)).map_err(Refusal::number),
        Err(3)
    );
    assert_eq!(rt;
        board.join(0, 1, Signal::Gate(0)).map_err(Refusal::number),
        Err(3)
    );
    Ok(())
}

#[test]
fn there_is_room_for_32_inputs_96_gates_and_384_wires(rt: HostRuntime) -> Result<(), Fail> {
    let mut board = Record::open(rt.alloc(), Complement { below: PlainGates })?;
    for i in 0..32 {
        assert_eq!(rt; board.add_input(), Ok(i));
    }
    assert_eq!(rt; board.add_input().map_err(Refusal::number), Err(2));
    for _ in 0..48 {
        board.add_gate(AND_8)?;
    }
    assert_eq!(rt; board.add_gate(NOT).map_err(Refusal::number), Err(2));
    assert_eq!(rt; board.add_gate(50).map_err(Refusal::number), Err(1));
    Ok(())
}

#[test]
fn accepted_changes_drop_the_marks_and_refused_ones_keep_them(rt: HostRuntime) -> Result<(), Fail> {
    let mut board = Record::open(rt.alloc(), Complement { below: PlainGates })?;
    enter_latch(&mut board, NOR_2)?;
    board.run()?;
    assert_eq!(rt;
        board.join(0, 5, Signal::Gate(0)).map_err(Refusal::number),
        Err(3)
    );
    assert_eq!(rt;
        board
            .set_signal(Signal::Gate(0), 3)
            .map_err(Refusal::number),
        Err(4)
    );
    assert_eq!(rt;
        board.marks(Signal::Input(0)),
        Ok((Mark::Unknown, Mark::Zero))
    );
    board.set_signal(Signal::Gate(0), 0)?;
    assert_eq!(rt;
        board.marks(Signal::Input(0)).map_err(Refusal::number),
        Err(9)
    );
    board.run()?;
    board.join(0, 0, Signal::Input(0))?;
    assert_eq!(rt;
        board.marks(Signal::Input(0)).map_err(Refusal::number),
        Err(9)
    );
    Ok(())
}

// The latch of cells, a NOR being truth number 1, and of a second complementing layer, where kind 38 is kind 19 below.
#[test]
fn every_library_serves(rt: HostRuntime) -> Result<(), Fail> {
    let mut cells = TableCells::open(rt.alloc())?;
    let nor = cells.add(2, 1)?;
    let mut board = Record::open(rt.alloc(), cells)?;
    enter_latch(&mut board, nor)?;
    assert_eq!(rt; board.run(), Ok((4, 2, 4)));
    let pile = Complement {
        below: Complement { below: PlainGates },
    };
    let mut board = Record::open(rt.alloc(), pile)?;
    enter_latch(&mut board, 38)?;
    assert_eq!(rt; board.run(), Ok((4, 2, 4)));
    Ok(())
}
