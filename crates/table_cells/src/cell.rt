//! One cell: its output by its truth number, and the exact extension of that.
ghost use Rattle.std.specs.Prelude.{◌≡◌, ◌+◌, ◌*◌, ◌^◌, ◌<◌, ◌≤◌, length};
ghost use Rattle.gates.specs.Marks.{extended};
ghost use Rattle.table_cells.specs.Cells.{index_of, bit_at, output_by};

use gates::Mark;

/// A truth number for 1 to 6 pins.
#[derive(Clone, Copy, PartialEq, Eq, Debug)]
pub(crate) struct Cell {
    pub(crate) pins: usize,
    pub(crate) truth: u64,
    ghost some: { 1 ≤ pins },
    ghost few: { pins ≤ 6 },
}

impl Cell {
    pub(crate) fn value(&self, bits: &[bool]) -> bool
        requires { length bits.now ≡ self.now.pins }
        ensures { result ≡ output_by self.now.truth bits.now }
    {
        bit(self.truth, index(bits))
    }

    pub(crate) fn extension(&self, marks: &[Mark]) -> Mark
        requires { length marks.now ≡ self.now.pins }
        ensures { result ≡ extended (output_by self.now.truth) marks.now }
    {
        spread(self.truth, marks, 0, 1)
    }
}

/// Bit `i` of a truth number.
fn bit(truth: u64, i: u32) -> bool
    requires { i < 64 }
    ensures { result ≡ bit_at truth i }
{
    (truth >> i) % 2 == 1
}

/// The number whose bit j is what pin j carries.
fn index(bits: &[bool]) -> u32
    requires { length bits.now ≤ 6 }
    ensures value { result ≡ index_of bits.now }
    ensures bound { result < 64 }
{
    match bits {
        [] => 0,
        [bit, rest @ ..] => 2 * index(rest) + u32::from(*bit),
    }
}

/// The least upper bound of the outputs over the bit lists that the marks cover.
/// The pins before these gave `index`, and the next one counts `weight`.
fn spread(truth: u64, marks: &[Mark], index: u32, weight: u32) -> Mark
    requires low { index < weight }
    requires room { weight * 2 ^ length marks.now ≤ 64 }
    ensures { result ≡ extended (λ bits. bit_at truth (index + weight * index_of bits)) marks.now }
{
    match marks {
        [] => Mark::from(bit(truth, index)),
        [mark, rest @ ..] => {
            let next = 2 * weight;
            match *mark {
                Mark::Zero => spread(truth, rest, index, next),
                Mark::One => spread(truth, rest, index + weight, next),
                Mark::Unknown => {
                    let low = spread(truth, rest, index, next);
                    let high = spread(truth, rest, index + weight, next);
                    low.lub(high)
                }
            }
        }
    }
}
