//! Each refusal with its line, and ties between two faults.
use super::*;
use asserted::assert_answers;
use std::test::Fail;

#[test]
fn a_field_or_a_line_is_missing(rt: HostRuntime) -> Result<(), Fail> {
    assert_answers(
        &rt,
        rt.alloc(),
        &[
            (b"", b"refused 15 text line 1\n"),
            (b"inputs 0\n", b"refused 15 text line 2\n"),
            (b"inputs 0\ngates 0", b"refused 15 text line 2\n"),
            (b"inputs\n2\n", b"refused 15 text line 1\n"),
            (b"inputs \n", b"refused 15 text line 1\n"),
            (b"inputs  2\n", b"refused 15 text line 1\n"),
            (b"inputs 1\na 0\ngates 0\n", b"refused 15 text line 2\n"),
            (
                b"inputs 0\ngates 1\ng  1 0 g 0\n",
                b"refused 15 text line 3\n",
            ),
            (
                b"inputs 0\ngates 1\ng not  0 g 0\n",
                b"refused 15 text line 3\n",
            ),
        ],
    )
}

#[test]
fn a_field_is_extra_or_malformed(rt: HostRuntime) -> Result<(), Fail> {
    assert_answers(
        &rt,
        rt.alloc(),
        &[
            (b"inputs 0\ngates 0\n\n", b"refused 15 text line 3\n"),
            (b"inputs 0 0\n", b"refused 15 text line 1\n"),
            (b"inputs\t0\n", b"refused 15 text line 1\n"),
            (b"inputs 1\na 01 0\n", b"refused 15 text line 2\n"),
            (b"inputs 1\n_a 0 0\n", b"refused 15 text line 2\n"),
            (
                b"inputs 0\ngates 1\ng not 1 0 B 0\n",
                b"refused 15 text line 3\n",
            ),
            (b"\xff", b"refused 15 text line 1\n"),
            (b"inputs 1\na\x00 0 0\n", b"refused 15 text line 2\n"),
            (b"inputs 2\na 0 0\ngates 1\n", b"refused 15 text line 3\n"),
        ],
    )
}

#[test]
fn a_number_is_malformed(rt: HostRuntime) -> Result<(), Fail> {
    assert_answers(
        &rt,
        rt.alloc(),
        &[
            (b"inputs x\n", b"refused 16 text line 1\n"),
            (b"inputs 00\n", b"refused 16 text line 1\n"),
            (b"inputs 33", b"refused 16 text line 1\n"),
            (b"inputs 2\r\n", b"refused 16 text line 1\n"),
            (b"inputs 4294967298\n", b"refused 16 text line 1\n"),
            (b"inputs 0\ngates 97\n", b"refused 16 text line 2\n"),
            (
                b"inputs 0\ngates 1\ng and 0 0\n",
                b"refused 16 text line 3\n",
            ),
            (
                b"inputs 0\ngates 1\ng not 1\t0 g 0\n",
                b"refused 16 text line 3\n",
            ),
        ],
    )
}

#[test]
fn names_words_and_sources(rt: HostRuntime) -> Result<(), Fail> {
    assert_answers(
        &rt,
        rt.alloc(),
        &[
            (b"inputs 2\na 0 0\na 0 0\n", b"refused 17 text line 3\n"),
            (
                b"inputs 1\na 0 0\ngates 1\na not 1 0 a 0\n",
                b"refused 17 text line 4\n",
            ),
            (
                b"inputs 0\ngates 1\ng foo 1 0 g 0\n",
                b"refused 18 text line 3\n",
            ),
            (
                b"inputs 0\ngates 1\ng or 1 0 g 0\n",
                b"refused 18 text line 3\n",
            ),
            (
                b"inputs 0\ngates 1\ng maj 2 0 g 0 g 0\n",
                b"refused 18 text line 3\n",
            ),
            (
                b"inputs 0\ngates 1\ng not 1 0 b 0\n",
                b"refused 19 text line 3\n",
            ),
            (
                b"inputs 0\ngates 2\ng and 2 0 g 0 b 0\nh and 2 0 b 0 b 0\n",
                b"refused 19 text line 3\n",
            ),
        ],
    )
}

#[test]
fn the_earlier_of_two_faults_counts(rt: HostRuntime) -> Result<(), Fail> {
    assert_answers(
        &rt,
        rt.alloc(),
        &[
            (b"input 33\n", b"refused 15 text line 1\n"),
            (b"inputs 2\na 0 0\na", b"refused 17 text line 3\n"),
            (b"inputs 0\ngates 1\ng foo", b"refused 18 text line 3\n"),
            (b"inputs 0\ngates 1\ng foo 9\n", b"refused 18 text line 3\n"),
            (
                b"inputs 0\ngates 1\ng not 9 0\n",
                b"refused 16 text line 3\n",
            ),
            (b"inputs 0\ngates 1\ng not 2\n", b"refused 18 text line 3\n"),
            (
                b"inputs 0\ngates 1\ng not 1 0 b 0\nx",
                b"refused 15 text line 4\n",
            ),
            (
                b"inputs 1\ngates 0 0\ngates 1\ngates not 1 0 b 0\n",
                b"refused 17 text line 4\n",
            ),
        ],
    )
}

#[test]
fn a_wire_too_many(rt: HostRuntime) -> Result<(), Fail> {
    let heap = rt.alloc();
    let cases: [(&[u8], &[u8]); 4] = [
        (b"w48 not 1\n", b"refused 2 record line 51\n"),
        (b"w48 not 2\n", b"refused 18 text line 51\n"),
        (b"w48 and 9\n", b"refused 16 text line 51\n"),
        (b"w3 not 1\n", b"refused 17 text line 51\n"),
    ];
    for (number, (last, bytes)) in cases.iter().enumerate() {
        let text = full(heap, last)?;
        assert!(rt; answers(heap, &text, bytes)?, "case {number} of the table");
    }
    Ok(())
}

#[test]
fn a_text_too_long(rt: HostRuntime) -> Result<(), Fail> {
    let heap = rt.alloc();
    let just_read = vec![in heap; b'1'; 65536]?;
    let too_long = vec![in heap; b'1'; 65537]?;
    assert_answers(
        &rt,
        heap,
        &[
            (&just_read, b"refused 15 text line 1\n"),
            (&too_long, b"refused 14 text line 0\n"),
        ],
    )
}
