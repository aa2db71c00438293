//! A table of texts, each with what the bench has to answer.
use super::*;
use std::process::Abort;
use std::test::Fail;

pub fn assert_answers(rt: &impl Abort, heap: Global, cases: &[(&[u8], &[u8])]) -> Result<(), Fail> {
    for (number, (text, bytes)) in cases.iter().enumerate() {
        assert!(rt; answers(heap, text, bytes)?, "case {number} of the table");
    }
    Ok(())
}
