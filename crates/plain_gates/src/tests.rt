//! What the plain gates answer on a few boards.
use crate::PlainGates;
use gates::{GateLibrary, Mark};

#[test]
fn two_ones_decide_a_majority(rt: HostRuntime) {
    let marks = [Mark::Unknown, Mark::One, Mark::One];
    assert_eq!(rt; PlainGates.extension(24, &marks), Some(Mark::One));
}

#[test]
fn xor_of_unknowns_is_unknown(rt: HostRuntime) {
    let marks = [Mark::Unknown, Mark::Unknown];
    assert_eq!(rt; PlainGates.extension(17, &marks), Some(Mark::Unknown));
}

#[test]
fn an_absent_kind_or_another_length_gives_nothing(rt: HostRuntime) {
    for kind in [1, 24, 25] {
        assert_eq!(rt; PlainGates.value(kind, &[true]), None);
        assert_eq!(rt; PlainGates.value(kind, &[]), None);
        assert_eq!(rt; PlainGates.extension(kind, &[Mark::One]), None);
        assert_eq!(rt; PlainGates.extension(kind, &[]), None);
    }
}
