//! A write-lock latch behind an activity LED, with power-fail gating, entered call by call.
#![tactic(auto)]

use circuit::Signal;
use gates::{Complement, Mark};
use plain_gates::PlainGates;
use record::Refusal;
use record::record::Record;
use sheet::LONGEST;
use std::fmt::Display;
use std::io::Write;
use std::{fmt, io};

// Spelled out: the one crate with a name for this type is the gate list reader's.
type Board = Record<Complement<PlainGates>>;

// Kinds of the complementing layer over plain gates, by their numbers in the library's list.
const NOT: usize = 1;

const AND_2: usize = 2;

const OR_2: usize = 18;

const NOR_2: usize = 19;

const LOCK: Signal = Signal::Input(0);

const UNLOCK: Signal = Signal::Input(1);

const POWER: Signal = Signal::Input(2);

const ACTIVITY: Signal = Signal::Input(3);

const FAILING: Signal = Signal::Gate(0);

const SET: Signal = Signal::Gate(1);

const RESET: Signal = Signal::Gate(2);

const LOCKED: Signal = Signal::Gate(3);

const RELEASED: Signal = Signal::Gate(4);

const LED: Signal = Signal::Gate(5);

// Not `calls::Call`, whose list of signals and size of buffer would be printed: this program prints a call by its `Debug`.
#[derive(Clone, Copy, Debug)]
enum Call {
    AddInput,
    AddGate(usize),
    Join(usize, usize, Signal),
    SetInput(usize, u8),
    SetSignal(Signal, u8),
    Unstable(Signal),
    Marks(Signal),
    Run,
    Sheet,
}

static SESSION: &[Call] = &[
    // an empty board
    Call::Sheet,
    Call::Run,
    Call::Sheet,
    // lock, unlock, power good, activity
    Call::AddInput,
    Call::AddInput,
    Call::AddInput,
    Call::AddInput,
    // the lock line counts only while power is good; power failing releases the latch
    Call::AddGate(NOT),
    Call::AddGate(AND_2),
    Call::AddGate(OR_2),
    Call::AddGate(NOR_2),
    Call::AddGate(NOR_2),
    Call::AddGate(AND_2),
    Call::AddGate(4096),
    Call::Join(0, 0, POWER),
    Call::Join(1, 0, LOCK),
    Call::Join(1, 1, POWER),
    Call::Join(2, 0, UNLOCK),
    Call::Join(2, 1, FAILING),
    Call::Join(3, 0, RESET),
    Call::Run,
    Call::Join(3, 1, RELEASED),
    Call::Join(4, 0, SET),
    Call::Join(4, 1, LOCKED),
    Call::Join(5, 0, ACTIVITY),
    Call::Join(5, 1, LOCKED),
    Call::Join(5, 2, LOCKED),
    // as it was found: powered and locked
    Call::SetInput(2, 1),
    Call::SetSignal(POWER, 1),
    Call::SetSignal(LOCKED, 1),
    Call::SetSignal(Signal::Wire(0), 1),
    Call::SetSignal(Signal::Wire(2), 1),
    Call::SetSignal(Signal::Wire(8), 1),
    Call::SetSignal(Signal::Wire(10), 1),
    Call::Unstable(LOCKED),
    Call::Run,
    Call::Sheet,
    // activity while the latch is released
    Call::SetInput(3, 1),
    Call::SetInput(1, 1),
    Call::Marks(LED),
    Call::Run,
    Call::Sheet,
    // locked anew from an unsettled latch
    Call::SetInput(1, 0),
    Call::SetInput(0, 1),
    Call::SetSignal(LOCKED, 0),
    Call::Run,
    Call::Marks(LED),
    // power fails meanwhile
    Call::SetInput(2, 0),
    Call::SetInput(4, 0),
    Call::SetInput(2, 2),
    Call::Run,
    Call::Sheet,
];

// First-pass steps, second-pass steps, open signals.
#[derive(Drop)]
struct Counts((usize, usize, usize));

impl Display for Counts {
    fn fmt<W: fmt::Write>(&self, f: &mut fmt::Formatter<W>) -> fmt::Result {
        let (first, second, open) = self.0;
        write!(f, "{first} {second} {open}")
    }
}

// The first and the second mark of a signal.
#[derive(Drop)]
struct Marks((Mark, Mark));

impl Display for Marks {
    fn fmt<W: fmt::Write>(&self, f: &mut fmt::Formatter<W>) -> fmt::Result {
        let (first, second) = self.0;
        write!(f, "{first}{second}")
    }
}

fn tell<T: Display + Drop>(
    rt: &HostRuntime,
    call: Call,
    answer: Result<T, Refusal>,
) -> io::Result<()> {
    match answer {
        Ok(value) => println!(rt; "{call:?}: {value}"),
        Err(refusal) => println!(rt; "{call:?}: {refusal}"),
    }
}

fn tell_done(rt: &HostRuntime, call: Call, answer: Result<(), Refusal>) -> io::Result<()> {
    tell(rt, call, answer.map(|()| "done"))
}

// The length of the sheet, and the sheet.
fn tell_sheet(rt: &HostRuntime, board: &Board) -> io::Result<()> {
    // The record writes into the caller's buffer and takes no memory.
    let mut buffer = [0u8; LONGEST];
    let answer = board.sheet(&mut buffer);
    tell(rt, Call::Sheet, answer)?;
    let sheet = answer.ok().and_then(|length| buffer.get(..length));
    rt.stdout().write_all(sheet.unwrap_or(&[]))
}

fn answer(rt: &HostRuntime, board: &mut Board, call: Call) -> io::Result<()> {
    match call {
        Call::AddInput => tell(rt, call, board.add_input()),
        Call::AddGate(kind) => tell(rt, call, board.add_gate(kind)),
        Call::Join(gate, pin, source) => tell_done(rt, call, board.join(gate, pin, source)),
        Call::SetInput(input, bit) => tell_done(rt, call, board.set_input(input, bit)),
        Call::SetSignal(signal, bit) => tell_done(rt, call, board.set_signal(signal, bit)),
        Call::Unstable(signal) => tell(rt, call, board.unstable(signal)),
        Call::Marks(signal) => tell(rt, call, board.marks(signal).map(Marks)),
        Call::Run => tell(rt, call, board.run().map(Counts)),
        Call::Sheet => tell_sheet(rt, board),
    }
}

fn main(rt: HostRuntime) -> anyhow::Result<()> {
    let mut board = Record::open(rt.alloc(), Complement { below: PlainGates })?;
    for call in SESSION {
        answer(&rt, &mut board, *call)?;
    }
    Ok(())
}
