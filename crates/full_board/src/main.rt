//! A full record, 32 inputs, 96 gates and 384 wires, whose longest chain is run as often as asked.
#![tactic(auto)]

use circuit::Signal;
use gates::Complement;
use plain_gates::PlainGates;
use record::Refusal;
use record::record::Record;
use std::env;

// Spelled out: the one crate with a name for this type is the gate list reader's.
type Board = Record<Complement<PlainGates>>;

// Kinds of the complementing layer over plain gates, by their numbers in the library's list.
const AND_4: usize = 6;

const OR_4: usize = 22;

const GATES: usize = 96;

// Input 0 rises while all others are high. Gate 0 is the OR of it and of the last gate, every other gate the AND of the gate
// before it and of three inputs: the rise runs through all of them, and once more round to gate 0.
fn enter(board: &mut Board) -> Result<(), Refusal> {
    for i in 0..32 {
        board.add_input()?;
        board.set_input(i, 1)?;
        board.set_signal(Signal::Input(i), (i != 0) as u8)?;
    }
    board.add_gate(OR_4)?;
    for _ in 1..GATES {
        board.add_gate(AND_4)?;
    }
    join_first(board)?;
    join_others(board)
}

fn join_first(board: &mut Board) -> Result<(), Refusal> {
    board.join(0, 0, Signal::Input(0))?;
    for pin in 1..4 {
        board.join(0, pin, Signal::Gate(GATES - 1))?;
    }
    Ok(())
}

fn join_others(board: &mut Board) -> Result<(), Refusal> {
    for gate in 1..GATES {
        board.join(gate, 0, Signal::Gate(gate - 1))?;
        for pin in 1..4 {
            board.join(gate, pin, Signal::Input((gate + pin) % 31 + 1))?;
            board.set_signal(Signal::Wire(4 * gate + pin), 1)?;
        }
    }
    Ok(())
}

// Enters the board, runs it so many times, and answers the last counts.
fn run(board: &mut Board, times: u32) -> Result<(usize, usize, usize), Refusal> {
    enter(board)?;
    let mut counts = board.run()?;
    for _ in 1..times {
        counts = board.run()?;
    }
    Ok(counts)
}

fn main(rt: HostRuntime) -> anyhow::Result<()> {
    let mut times = 1;
    for word in env::args(&rt)?.skip(1) {
        times = word.as_str().parse::<u32>()?;
    }
    let mut board = Record::open(rt.alloc(), Complement { below: PlainGates })?;
    match run(&mut board, times) {
        Ok((first, second, open)) => println!(rt; "{first} {second} {open}")?,
        Err(refusal) => println!(rt; "{refusal}")?,
    }
    Ok(())
}
