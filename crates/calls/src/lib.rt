//! Calls as values, and a list of calls answered on one newly opened record, with the whole promise.
#![tactic(auto)]

ghost use Rattle.std.specs.Prelude.{◌≡◌, length, IfOk, OnOk};
ghost use Rattle.gates.specs.Told.{told_by};
ghost use Rattle.record.specs.Boards.{Sound};
ghost use Rattle.record.specs.Calls.{sheet_stop, sheet_of};
ghost use Rattle.record.specs.Views.{board_of};
ghost use Rattle.calls.specs.Tellings.{told_of, sheet};
ghost use Rattle.calls.specs.Effects.{effect, Answered};
ghost use Rattle.calls.specs.Promises.{Promise};

use circuit::Signal;
use gates::{GateLibrary, Mark};
use record::Refusal;
use record::record::Record;
use sheet::LONGEST;
use std::alloc::{AllocError, Global};

/// A call on a record, with its arguments.
#[derive(Drop)]
pub enum Call {
    AddInput,
    /// A gate of this kind.
    AddGate(usize),
    /// A gate's pin to a source.
    Join(usize, usize, Signal),
    /// An input's applied value.
    SetInput(usize, u8),
    /// A signal's value.
    SetSignal(Signal, u8),
    Unstable(Signal),
    Fire(Vec<Signal>),
    Run,
    Marks(Signal),
    Adopt,
    /// The sheet, for a buffer of so many bytes.
    Sheet(usize),
}

/// What a call answers that is not refused.
#[derive(Drop)]
pub enum Answer {
    /// Of a new input or gate.
    Number(usize),
    Done,
    Unstable(bool),
    /// First-pass steps, second-pass steps, open count.
    Ran(usize, usize, usize),
    /// First and second mark.
    Marks(Mark, Mark),
    Sheet(Vec<u8>),
}

/// Opens a record over the library and answers the calls in their order.
pub fn answer_all<L: GateLibrary + Drop>(
    heap: Global,
    library: L,
    calls: &[Call],
) -> Result<Vec<Result<Answer, Refusal>>, AllocError>
    ensures { IfOk result (λ answers. Promise (L.GateLibrary.kinds library) calls.now answers.items) }
{
    let mut held = Record::open(heap, library)?;
    let mut answers = Vec::with_capacity(heap, calls.len())?;
    for call in calls {
        let answer = perform(heap, &mut held, call)?;
        answers.push_reserved(answer);
    }
    Ok(answers)
}

fn perform<L: GateLibrary>(
    heap: Global,
    held: &mut Record<L>,
    call: &Call,
) -> Result<Result<Answer, Refusal>, AllocError>
    ensures sound { OnOk result (Sound (board_of L.GateLibrary.kinds held.old)) }
    ensures answer { let b = board_of L.GateLibrary.kinds held.old in IfOk result (λ a. Answered b call.now (told_of a)) }
    ensures after { let b = board_of L.GateLibrary.kinds held.old in OnOk result (board_of L.GateLibrary.kinds held.new ≡ effect b call.now) }
{
    held.sound();
    match call {
        Call::AddInput => Ok(held.add_input().map(Answer::Number)),
        Call::AddGate(kind) => Ok(held.add_gate(*kind).map(Answer::Number)),
        Call::Join(gate, pin, source) => Ok(held.join(*gate, *pin, *source).map(|()| Answer::Done)),
        Call::SetInput(input, bit) => Ok(held.set_input(*input, *bit).map(|()| Answer::Done)),
        Call::SetSignal(signal, bit) => Ok(held.set_signal(*signal, *bit).map(|()| Answer::Done)),
        Call::Unstable(signal) => Ok(held.unstable(*signal).map(Answer::Unstable)),
        Call::Fire(signals) => Ok(held.fire(signals).map(|()| Answer::Done)),
        Call::Run => Ok(
            held.run()
                .map(|(first, second, open)| Answer::Ran(first, second, open)),
        ),
        Call::Marks(signal) => Ok(
            held.marks(*signal)
                .map(|(first, second)| Answer::Marks(first, second)),
        ),
        Call::Adopt => Ok(held.adopt().map(|()| Answer::Done)),
        Call::Sheet(room) => sheet_for(heap, held, *room),
    }
}

// Only the sheet itself takes memory.
fn sheet_for<L: GateLibrary>(
    heap: Global,
    held: &Record<L>,
    room: usize,
) -> Result<Result<Answer, Refusal>, AllocError>
    ensures { let b = board_of L.GateLibrary.kinds held.now in IfOk result (λ a. told_of a ≡ told_by (sheet_stop b room) (sheet (sheet_of b))) }
{
    held.sound();
    let mut page = [0; LONGEST];
    let end = room.min(LONGEST);
    match held.sheet(&mut page[..end]) {
        Ok(length) => Ok(Ok(Answer::Sheet(Vec::from_slice(heap, &page[..length])?))),
        Err(refusal) => Ok(Err(refusal)),
    }
}
