//! A section of the sheet.
ghost use Rattle.std.specs.Prelude.{◌≡◌, ℕ, ◌+◌, ◌*◌, ◌<◌, ◌≤◌, List, length, decimal};
ghost use Rattle.sheet.specs.Sheets.{lines, section};

use gates::Mark;
use std::marker::Model;

/// A heading, and a line with both marks of each signal. A contract sees it as its text.
#[derive(Drop)]
pub(crate) struct Section<'a> {
    word: &'a [u8],
    firsts: &'a [Mark],
    seconds: &'a [Mark],
}

impl<'a> Model for Section<'a> {
    ghost Value = { List ℕ };

    ghost view = { λ s. section s.word.now s.firsts.now s.seconds.now };

    ghost invariant = { λ s. (length s.word.now ≤ 7) × (length s.firsts.now ≤ 512) × (length s.firsts.now ≡ length s.seconds.now) };
}

impl<'a> Section<'a> {
    pub(crate) fn new(word: &'a [u8], firsts: &'a [Mark], seconds: &'a [Mark]) -> Section<'a>
        requires short { length word.now ≤ 7 }
        requires few { length firsts.now ≤ 512 }
        requires level { length firsts.now ≡ length seconds.now }
        ensures { result ≡ section word.now firsts.now seconds.now }
    {
        Section {
            word,
            firsts,
            seconds,
        }
    }

    pub(crate) fn len(&self) -> usize
        ensures value { result ≡ length self.now }
        ensures bound { result < 2000 }
    {
        let count = self.firsts.len();
        self.word.len() + digits(count) + 1 + 3 * count
    }

    /// Fills a page of the section's length.
    pub(crate) fn write(&self, page: &mut [u8])
        requires { length page.old ≡ length self.now }
        ensures { page.new ≡ self.now }
    {
        let count = self.firsts.len();
        let (word, rest) = page.split_at_mut(self.word.len());
        let (number, rest) = rest.split_at_mut(digits(count));
        let (end, rest) = rest.split_at_mut(1);
        word.copy_from_slice(self.word);
        put_number(number, count);
        end.copy_from_slice(b"\n");
        put_lines(rest, self.firsts, self.seconds);
    }
}

// Fills a page of the number's length with its digits.
// By hand: a `write!` of std into a slice does not promise which bytes it leaves there.
fn put_number(page: &mut [u8], number: usize)
    requires { length page.old ≡ length (decimal number) }
    ensures { page.new ≡ decimal number }
{
    let last = page.len() - 1;
    page[last] = b'0' + (number % 10) as u8;
    if number >= 10 {
        put_number(&mut page[..last], number / 10);
    }
}

// Fills a page of three bytes for each signal.
// By places: after a loop over `chunks_exact_mut` no proof knows the page's bytes.
fn put_lines(page: &mut [u8], firsts: &[Mark], seconds: &[Mark])
    requires room { length page.old ≡ 3 * length firsts.now }
    requires level { length firsts.now ≡ length seconds.now }
    ensures { page.new ≡ lines firsts.now seconds.now }
{
    for (i, (first, second)) in firsts.iter().zip(seconds).enumerate() {
        let line = [first.symbol(), second.symbol(), b'\n'];
        page[3 * i..3 * i + 3].copy_from_slice(&line);
    }
}

// How many digits a number has.
fn digits(number: usize) -> usize
    ensures value { result ≡ length (decimal number) }
    ensures bound { result ≤ 20 }
{
    match number.checked_ilog10() {
        Some(power) => power as usize + 1,
        None => 1,
    }
}
