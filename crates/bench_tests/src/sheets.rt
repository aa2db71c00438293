//! The sheets of small boards.
use super::*;
use asserted::assert_answers;
use std::test::Fail;

#[test]
fn boards_without_inputs(rt: HostRuntime) -> Result<(), Fail> {
    assert_answers(
        &rt,
        rt.alloc(),
        &[
            (b"inputs 0\ngates 0\n", b"inputs 0\ngates 0\nwires 0\n"),
            (
                b"inputs 0\ngates 1\ng not 1 0 g 0\n",
                b"inputs 0\ngates 1\n??\nwires 1\n??\n",
            ),
            (
                b"inputs 0\ngates 1\ng buf 1 0 g 0\n",
                b"inputs 0\ngates 1\n00\nwires 1\n00\n",
            ),
            (
                b"inputs 0\ngates 1\ng buf 1 1 g 0\n",
                b"inputs 0\ngates 1\n??\nwires 1\n??\n",
            ),
        ],
    )
}

#[test]
fn boards_with_inputs(rt: HostRuntime) -> Result<(), Fail> {
    assert_answers(
        &rt,
        rt.alloc(),
        &[
            (
                b"inputs 1\na 1 0\ngates 0\n",
                b"inputs 1\n?1\ngates 0\nwires 0\n",
            ),
            (
                b"inputs 2\nset 1 1\nreset 0 1\ngates 2\nq nor 2 0 set 1 qn 0\nqn nor 2 0 reset 1 q 0\n",
                b"inputs 2\n11\n?0\ngates 2\n00\n?1\nwires 4\n11\n?1\n?0\n00\n",
            ),
            (
                b"inputs 1\na 1 0\ngates 1\ng xor 2 0 a 0 a 0\n",
                b"inputs 1\n?1\ngates 1\n?0\nwires 2\n?1\n?1\n",
            ),
        ],
    )
}

// An input and a gate may have the words of the format for their names.
#[test]
fn no_name_is_reserved(rt: HostRuntime) -> Result<(), Fail> {
    assert_answers(
        &rt,
        rt.alloc(),
        &[(
            b"inputs 1\ngates 1 0\ngates 1\nand not 1 1 gates 0\n",
            b"inputs 1\n?1\ngates 1\n?0\nwires 1\n?1\n",
        )],
    )
}
