//! The four rules that plain gates follow: each goes by how many of its pins carry 1.
ghost use Rattle.std.specs.Prelude.{◌≡◌};
ghost use Rattle.std.specs.Option.{option_map};
ghost use Rattle.std.specs.List.{slice_get};
ghost use Rattle.gates.specs.Marks.{extended};
ghost use Rattle.gates.specs.Kinds.{given_by};
ghost use Rattle.plain_gates.specs.Plain.{plain};
ghost use Rattle.plain_gates.specs.Rules.{function_of, ruled, output_at};

use crate::ones::{mark_counts, ones};
use gates::Mark;

#[derive(Clone, Copy, PartialEq, Eq, Debug)]
pub(crate) enum Rule {
    And,
    Or,
    Xor,
    Majority,
}

/// The rule and the pin count of a kind.
pub(crate) fn numbered(kind: usize) -> Option<(Rule, usize)>
    ensures { option_map ruled result ≡ slice_get plain kind }
{
    match kind {
        0..8 => Some((Rule::And, kind + 1)),
        8..16 => Some((Rule::Or, kind - 7)),
        16..24 => Some((Rule::Xor, kind - 15)),
        24 => Some((Rule::Majority, 3)),
        _ => None,
    }
}

/// The rule of a kind, if it has as many pins as there are entries.
pub(crate) fn rule_for<A>(kind: usize, entries: &[A]) -> Option<Rule>
    ensures { option_map function_of result ≡ given_by (λ f _. f) (slice_get plain kind) entries.now }
{
    let (rule, pins) = numbered(kind)?;
    (entries.len() == pins).then_some(rule)
}

impl Rule {
    /// The output when `ones` of `pins` pins carry 1.
    fn output(self, ones: usize, pins: usize) -> bool
        ensures { result ≡ output_at self ones pins }
    {
        match self {
            Rule::And => ones == pins,
            Rule::Or => ones > 0,
            Rule::Xor => ones % 2 == 1,
            Rule::Majority => ones > pins / 2,
        }
    }

    pub(crate) fn value(self, bits: &[bool]) -> bool
        ensures { result ≡ function_of self bits.now }
    {
        self.output(ones(bits), bits.len())
    }

    /// The least upper bound of the outputs, from no unknown pin carrying 1 to all of them.
    pub(crate) fn extension(self, marks: &[Mark]) -> Mark
        ensures { result ≡ extended (function_of self) marks.now }
    {
        let (sure, unknown) = mark_counts(marks);
        let pins = marks.len();
        let least = Mark::from(self.output(sure, pins));
        (sure + 1..sure + unknown + 1).fold(
            least,
            |mark, ones| mark.lub(Mark::from(self.output(ones, pins))),
        )
    }
}
