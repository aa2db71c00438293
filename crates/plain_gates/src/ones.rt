//! How many pins carry 1, as far as bits or marks tell.
ghost use Rattle.std.specs.Prelude.{◌≡◌, ◌+◌, ◌≤◌, length};
ghost use Rattle.plain_gates.specs.Plain.{ones_in};
ghost use Rattle.plain_gates.specs.Rules.{sure_ones, unknowns};

use gates::Mark;

pub(crate) fn ones(bits: &[bool]) -> usize
    ensures { result ≡ ones_in bits.now }
{
    bits.iter().filter(|bit| **bit).count()
}

/// How many marks are 1, and how many are unknown.
// In one loop: two chains of `filter` and `count` make the passes of a full board a sixth slower.
pub(crate) fn mark_counts(marks: &[Mark]) -> (usize, usize)
    ensures sure { result.0 ≡ sure_ones marks.now }
    ensures unknown { result.1 ≡ unknowns marks.now }
    ensures bound { result.0 + result.1 ≤ length marks.now }
{
    let mut sure = 0;
    let mut unknown = 0;
    for mark in marks {
        match mark {
            Mark::Zero => {}
            Mark::One => sure += 1,
            Mark::Unknown => unknown += 1,
        }
    }
    (sure, unknown)
}
