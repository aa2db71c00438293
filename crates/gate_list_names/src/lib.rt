//! The name table of a gate list: entries that give names by place and length in the text.
#![tactic(auto)]

ghost use Rattle.std.specs.Prelude.{◌≡◌, ℕ, ◌-◌, ◌++◌, length, take, replicate};
ghost use Rattle.std.specs.Str.{bytes_eq};
ghost use Rattle.gate_list_names.specs.Names.{at, names_in, First};
ghost use Rattle.gate_list_names.specs.Given.{input_names, gate_names};
ghost use Rattle.gate_list_names.specs.Sources.{FirstSource};

use circuit::Source;

/// What has its name at a place of a text
pub trait Entry {
    ghost start: { Self → ℕ };

    ghost size: { Self → ℕ };

    /// Where the name begins, from 0
    fn place(&self) -> usize
        ensures { result ≡ start self.now };

    /// How many bytes the name has
    fn length(&self) -> usize
        ensures { result ≡ size self.now };
}

/// The name of an input
// A place and a length, and no slice: the tables are the caller's, and may outlive the text.
// Both entries spell these two fields: they are plain values that callers write and read field by field.
#[derive(Clone, Copy, PartialEq, Eq, Debug, Default)]
pub struct InputEntry {
    pub place: usize,
    pub length: usize,
}

/// The name and the kind of a gate
#[derive(Clone, Copy, PartialEq, Eq, Debug, Default)]
pub struct GateEntry {
    pub place: usize,
    pub length: usize,
    pub kind: usize,
}

// The tables are slices that the caller lends, of two kinds of entries: so the trait has an impl for each.
impl Entry for InputEntry {
    ghost start = { λ e. e.place };

    ghost size = { λ e. e.length };

    fn place(&self) -> usize {
        self.place
    }

    fn length(&self) -> usize {
        self.length
    }
}

impl Entry for GateEntry {
    ghost start = { λ e. e.place };

    ghost size = { λ e. e.length };

    fn place(&self) -> usize {
        self.place
    }

    fn length(&self) -> usize {
        self.length
    }
}

/// So many bytes of a text from a place on, or as many as there are
pub fn part(text: &[u8], place: usize, length: usize) -> &[u8]
    ensures { result.now ≡ at text.now place length }
{
    let rest = &text[place.min(text.len())..];
    &rest[..length.min(rest.len())]
}

/// Whether an entry has a name
fn is_named<E: Entry>(entry: &E, text: &[u8], name: &[u8]) -> bool
    ensures { result ≡ bytes_eq (at text.now (E.Entry.start entry.now) (E.Entry.size entry.now)) name.now }
{
    part(text, entry.place(), entry.length()) == name
}

/// The first entry of a name
pub fn find<E: Entry>(table: &[E], text: &[u8], name: &[u8]) -> Option<usize>
    ensures { First name.now (names_in E.Entry.start E.Entry.size text.now table.now) result }
{
    table.iter().position(|entry| is_named(entry, text, name))
}

/// A text, and the tables of the names that its inputs and gates have
#[derive(Clone, Copy)]
pub struct Names<'a> {
    pub text: &'a [u8],
    pub inputs: &'a [InputEntry],
    pub gates: &'a [GateEntry],
}

impl<'a> Names<'a> {
    /// The input or else the gate that has a name
    pub fn source(self, name: &[u8]) -> Option<Source>
        ensures { FirstSource name.now (input_names self.entry) (gate_names self.entry) result }
    {
        find(self.inputs, self.text, name)
            .map(Source::Input)
            .or_else(|| find(self.gates, self.text, name).map(Source::Gate))
    }
}

/// Blanks a table from an entry on
pub fn blank_from<E: Copy>(table: &mut [E], from: usize, blank: E)
    ensures { table.new ≡ take from table.old ++ replicate (length table.old - from) blank }
{
    let start = from.min(table.len());
    table[start..].fill_with(|| blank);
}
