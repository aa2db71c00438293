//! Marks, and gate libraries: what a library means and what it answers.
#![tactic(auto)]

ghost use Rattle.std.specs.Prelude.{◌≡◌, Bool, List, [], ◌∷◌, Some, length};
ghost use Rattle.gates.specs.Marks.{settled, covers, lub, complemented, mark_code, mark_symbol, ExtensionExact};
ghost use Rattle.gates.specs.Kinds.{Kind, Lawful, complementing, IsPaired, pins_of, value_of, extension_of};
ghost use Rattle.gates.specs.Paired.{lawful_complementing};

use std::fmt;
use std::fmt::Write;

/// What is known of a signal: its value, or nothing.
#[derive(Clone, Copy, PartialEq, Eq, Debug)]
pub enum Mark {
    Zero,
    One,
    Unknown,
}

impl From<bool> for Mark {
    // the settled mark of a value
    ghost from_gives = { λ bit mark. mark ≡ settled bit };

    fn from(bit: bool) -> Mark {
        if bit { Mark::One } else { Mark::Zero }
    }
}

impl From<Mark> for u8 {
    // 0, 1, or 2 for unknown
    ghost from_gives = { λ mark code. code ≡ mark_code mark };

    fn from(mark: Mark) -> u8 {
        mark as u8
    }
}

impl fmt::Display for Mark {
    // its character on the sheet
    ghost output = { λ mark. Some (mark_symbol mark ∷ []) };

    fn fmt<W: fmt::Write>(&self, f: &mut fmt::Formatter<W>) -> fmt::Result {
        f.write_char(char::from(self.symbol()))
    }
}

impl Mark {
    /// Whether a signal with this mark may have the value `bit`.
    pub fn covers(self, bit: bool) -> bool
        ensures { result ≡ covers self bit }
    {
        match self {
            Mark::Zero => !bit,
            Mark::One => bit,
            Mark::Unknown => true,
        }
    }

    /// The least upper bound: of equal marks that mark, of others unknown.
    pub fn lub(self, other: Mark) -> Mark
        ensures { result ≡ lub self other }
    {
        if self == other { self } else { Mark::Unknown }
    }

    pub fn complement(self) -> Mark
        ensures { result ≡ complemented self }
    {
        match self {
            Mark::Zero => Mark::One,
            Mark::One => Mark::Zero,
            Mark::Unknown => Mark::Unknown,
        }
    }

    /// The character of the sheet: `0`, `1` or `?`.
    // A byte beside `Display`: the sheet is written as bytes.
    pub fn symbol(self) -> u8
        ensures { result ≡ mark_symbol self }
    {
        match self {
            Mark::Zero => b'0',
            Mark::One => b'1',
            Mark::Unknown => b'?',
        }
    }
}

/// A numbered list of gate kinds, each a pin count and a Boolean function.
// A kind is a number and no enum: each library has its own list, and a number that is not in it is answered with nothing.
pub trait GateLibrary {
    ghost kinds: { Self → List Kind };

    /// How many kinds there are; they are numbered from 0.
    fn kind_count(&self) -> usize
        ensures { result ≡ length (kinds self.now) };

    /// A kind's pin count, or nothing if there is no such kind.
    fn pin_count(&self, kind: usize) -> Option<usize>
        ensures { result ≡ pins_of (kinds self.now) kind };

    // Bits and marks are asked apart: one question over a type parameter would want a trait of entries for just these two types.
    /// The function's value, or nothing if the kind is absent or has another pin count.
    fn value(&self, kind: usize, bits: &[bool]) -> Option<bool>
        ensures { result ≡ value_of (kinds self.now) kind bits.now };

    /// The exact extension of the function, or nothing in the same cases.
    fn extension(&self, kind: usize, marks: &[Mark]) -> Option<Mark>
        ensures { result ≡ extension_of (kinds self.now) kind marks.now };

    ghost lawful: { (l : Self) → Lawful (kinds l) };
}

/// Kind 2k is kind k of the library below, kind 2k + 1 its complement.
#[derive(Drop)]
pub struct Complement<L> {
    pub below: L,
}

impl<L: GateLibrary> GateLibrary for Complement<L> {
    ghost kinds = { λ l. complementing (L.GateLibrary.kinds l.below) };

    ghost lawful = { λ l. lawful_complementing _ (L.GateLibrary.lawful l.below) };

    fn kind_count(&self) -> usize {
        2 * self.below.kind_count().min(2048)
    }

    fn pin_count(&self, kind: usize) -> Option<usize> {
        let (below, _) = paired(kind)?;
        self.below.pin_count(below)
    }

    fn value(&self, kind: usize, bits: &[bool]) -> Option<bool> {
        let (below, complemented) = paired(kind)?;
        let value = self.below.value(below, bits)?;
        Some(if complemented { !value } else { value })
    }

    fn extension(&self, kind: usize, marks: &[Mark]) -> Option<Mark> {
        let (below, complemented) = paired(kind)?;
        let mark = self.below.extension(below, marks)?;
        Some(if complemented {
            mark.complement()
        } else {
            mark
        })
    }
}

/// The kind below, and whether it is complemented; nothing from kind 4,096 on.
fn paired(kind: usize) -> Option<(usize, bool)>
    ensures { IsPaired kind result }
{
    (kind < 4096).then_some((kind / 2, kind % 2 == 1))
}

/// Theorem: the exact extension covers just the values that the function takes on covered bits.
pub fn extension_exact()
    ensures { ExtensionExact }
{}
