//! The bench: a gate list from standard input, its sheet or its refusal to standard output.
#![tactic(auto)]

use bench_answer::bench;
use std::io;
use std::io::{Read, Write};

/// One byte more than a gate list may have is enough to answer.
const ENOUGH: u64 = 65537;

fn main(rt: HostRuntime) -> io::Result<()> {
    let heap = rt.alloc();
    let mut text = Vec::new(heap);
    rt.stdin().take(ENOUGH).read_to_end(&mut text)?;
    let bytes = bench(heap, &text)?;
    rt.stdout().write_all(&bytes)
}
