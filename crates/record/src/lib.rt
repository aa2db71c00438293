//! The circuit record: a circuit over any gate library, entered call by call, with its values and its marks.
#![tactic(auto)]

ghost use Rattle.std.specs.Prelude.{◌≡◌, Some};
ghost use Rattle.record.specs.Answers.{stop_of, refusal_of, refusal_text};

use circuit::tables::changes::Misfit;
use std::error::Error;
use std::fmt;

mod marks;
pub mod record;

/// Why a call was stopped. Nothing has changed then.
#[derive(Clone, Copy, PartialEq, Eq, Debug)]
pub enum Refusal {
    /// 1: the library has no such kind.
    NoKind,
    /// 2: it would be input 33, gate 97 or a wire beyond 384.
    Full,
    /// 3: the signal, input, gate, pin or source is not there, or the source is a wire.
    Absent,
    /// 4: a bit is neither 0 nor 1.
    NotABit,
    /// 5: this gate's pin is not joined, the first by gate and then by pin.
    Unjoined(usize, usize),
    /// 6: the list of signals is empty.
    EmptyList,
    /// 7: a signal stands in the list before.
    Repeated,
    /// 8: a signal to be fired is stable.
    Stable,
    /// 9: no marks stand.
    NoMarks,
    /// 10: a second mark is unknown.
    StillOpen,
    /// 11: the buffer is shorter than the sheet.
    ShortBuffer,
}

impl Refusal {
    /// The number under which the refusal is documented.
    pub fn number(self) -> u8
        ensures { result ≡ (stop_of self).number }
    {
        // A match, since a variant with fields has no number of its own.
        match self {
            Refusal::NoKind => 1,
            Refusal::Full => 2,
            Refusal::Absent => 3,
            Refusal::NotABit => 4,
            Refusal::Unjoined(_, _) => 5,
            Refusal::EmptyList => 6,
            Refusal::Repeated => 7,
            Refusal::Stable => 8,
            Refusal::NoMarks => 9,
            Refusal::StillOpen => 10,
            Refusal::ShortBuffer => 11,
        }
    }
}

impl From<Misfit> for Refusal {
    ghost from_gives = { λ misfit refusal. refusal ≡ refusal_of misfit };

    fn from(misfit: Misfit) -> Refusal {
        match misfit {
            Misfit::Full => Refusal::Full,
            Misfit::Absent => Refusal::Absent,
        }
    }
}

impl fmt::Display for Refusal {
    ghost output = { λ refusal. Some (refusal_text refusal) };

    fn fmt<W: fmt::Write>(&self, f: &mut fmt::Formatter<W>) -> fmt::Result {
        let number = self.number();
        match *self {
            Refusal::Unjoined(gate, pin) => write!(f, "refused {number}: gate {gate} pin {pin}"),
            _ => write!(f, "refused {number}"),
        }
    }
}

impl Error for Refusal {}
