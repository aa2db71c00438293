//! What a library of cells answers on a few boards.
use crate::{CellRefusal, TableCells};
use gates::{GateLibrary, Mark};
use std::test::Fail;

#[test]
fn a_cell_of_three_pins(rt: HostRuntime) -> Result<(), Fail> {
    let mut cells = TableCells::open(rt.alloc())?;
    assert_eq!(rt; cells.add(3, 228), Ok(0));
    let settled = [Mark::Unknown, Mark::One, Mark::One];
    assert_eq!(rt; cells.extension(0, &settled), Some(Mark::One));
    let open = [Mark::Unknown, Mark::Zero, Mark::One];
    assert_eq!(rt; cells.extension(0, &open), Some(Mark::Unknown));
    Ok(())
}

#[test]
fn higher_truth_bits_are_ignored(rt: HostRuntime) -> Result<(), Fail> {
    let mut cells = TableCells::open(rt.alloc())?;
    for truth in [2, 6] {
        let kind = cells.add(1, truth)?;
        assert_eq!(rt; cells.value(kind, &[false]), Some(false));
        assert_eq!(rt; cells.value(kind, &[true]), Some(true));
    }
    Ok(())
}

#[test]
fn an_absent_kind_or_another_length_gives_nothing(rt: HostRuntime) -> Result<(), Fail> {
    let mut cells = TableCells::open(rt.alloc())?;
    let _ = cells.add(2, 8)?;
    for kind in [0, 1] {
        assert_eq!(rt; cells.value(kind, &[true]), None);
        assert_eq!(rt; cells.value(kind, &[]), None);
        assert_eq!(rt; cells.extension(kind, &[Mark::One]), None);
        assert_eq!(rt; cells.extension(kind, &[]), None);
    }
    Ok(())
}

#[test]
fn a_cell_outside_the_limits_is_refused(rt: HostRuntime) -> Result<(), Fail> {
    let mut cells = TableCells::open(rt.alloc())?;
    for pins in [0, 7] {
        assert_eq!(rt; cells.add(pins, 1), Err(CellRefusal::OutsideLimits));
    }
    for _ in 0..32 {
        let _ = cells.add(6, 1)?;
    }
    assert_eq!(rt; cells.add(6, 1), Err(CellRefusal::OutsideLimits));
    assert_eq!(rt; cells.kind_count(), 32);
    Ok(())
}
