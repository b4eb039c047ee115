//! A sheet whose words and names fit together: its checks are 1, 26, 27, 26.
ghost use Rattle.std.specs.Prelude.{◌≡◌, ◌+◌, ◌*◌, ◌-◌, ◌<◌, ◌≤◌, length, eqb, IfOk, IsTrue};
ghost use Rattle.terms.specs.Terms.{first};
ghost use Rattle.sheets.specs.Words as W;
ghost use Rattle.sheets.specs.Words.{name_of};
ghost use Rattle.sheets.specs.Edges.{reaches};
ghost use Rattle.sheets.specs.Checks.{first_outside, shaped, words_verdict};
ghost use Rattle.sheets.specs.inner.Asked.{Shaped};
ghost use Rattle.sheets.specs.inner.Found.{outcome};

use crate::words::Words;
use answers::Refusal;

// The name of each row lies in the names.
fn all_inside<'a>(words: Words<'a>, names: &'a [u8], rows: usize) -> bool
    requires { (rows ≡ W.items words.all.now + W.listed words.all.now) × (5 + 4 * rows ≤ length words.all.now) }
    ensures { result ≡ eqb (first_outside words.entry.all.now names.now) rows }
{
    for row in 0..rows {
        if names.len() < words.name_at(row) + words.name_length(row) {
            return false;
        }
    }
    true
}

// The shape of the words, and each name inside the slice.
#[tactic(auto, unfolding(crate::specs::Checks::shaped), using(crate::proofs::CheckLaws::headed_size))]
fn is_shaped<'a>(words: Words<'a>, names: &'a [u8]) -> bool
    ensures { result ≡ shaped words.entry.all.now names.now }
{
    words.headed() && words.runs_on() && all_inside(words, names, words.items() + words.listed())
}

// A sheet whose rows are there, each name in the names, and each edge with an item.
#[derive(Clone, Copy)]
pub(crate) struct Sheet<'a> {
    words: Words<'a>,
    names: &'a [u8],
    ghost shape: { Shaped words.all.now names.now },
}

impl<'a> Sheet<'a> {
    // 1, under five words 26, 27, other faults of shape or a name outside the slice 26.
    #[tactic(auto, unfolding(crate::specs::Checks::words_verdict, crate::specs::Checks::shape_verdict, answers::specs::Caps::first_of))]
    pub(crate) fn read(words: &'a [u32], names: &'a [u8]) -> Result<Self, Refusal>
        ensures verdict { outcome result ≡ words_verdict words.now names.now }
        ensures same { IfOk result (λ s. (s.words.all.now ≡ words.now) × (s.names.now ≡ names.now)) }
    {
        answers::check_length(names.len())?;
        let words = Words::read(words)?;
        if !is_shaped(words, names) {
            return Err(Refusal::MalformedSheet);
        }
        Ok(Sheet { words, names })
    }

    pub(crate) fn items(self) -> usize
        ensures { result ≡ W.items self.entry.words.all.now }
    {
        self.words.items()
    }

    pub(crate) fn listed(self) -> usize
        ensures { result ≡ W.listed self.entry.words.all.now }
    {
        self.words.listed()
    }

    // A row is a number in the next three: as a type it would carry the sheet, and `one_name` ask that two rows carry the same, which is no plainer.

    // Where a row's name starts in the names.
    pub(crate) fn name_at(self, row: usize) -> usize
        requires { row < W.items self.words.all.now + W.listed self.words.all.now }
        ensures { (result ≡ W.name_at self.entry.words.all.now row) × (result ≤ 65536) }
    {
        self.words.name_at(row)
    }

    // The name of a row.
    pub(crate) fn name(self, row: usize) -> &'a [u8]
        requires { row < W.items self.words.all.now + W.listed self.words.all.now }
        ensures { (result.now ≡ name_of self.entry.words.all.now self.entry.names.now row) × (length result.now ≤ 65536) }
    {
        let at = self.words.name_at(row);
        let end = at + self.words.name_length(row);
        &self.names[at..end]
    }

    // Two rows have their name in one place.
    pub(crate) fn one_name(self, row: usize, other: usize) -> bool
        requires row_in { row < W.items self.words.all.now + W.listed self.words.all.now }
        requires other_in { other < W.items self.words.all.now + W.listed self.words.all.now }
        ensures { IsTrue result → name_of self.entry.words.all.now self.entry.names.now row ≡ name_of self.entry.words.all.now self.entry.names.now other }
    {
        self.words.name_at(row) == self.words.name_at(other)
            && self.words.name_length(row) == self.words.name_length(other)
    }

    // The item that lists edge k, which is item `from` or a later one.
    pub(crate) fn owner(self, from: usize, k: usize) -> usize
        requires { first (reaches self.words.all.now k) from (W.items self.words.all.now - from) < W.items self.words.all.now }
        ensures { result ≡ first (reaches self.entry.words.all.now k) from (W.items self.entry.words.all.now - from) }
    {
        for i in from..self.items() {
            if k < self.words.first_edge(i) + self.words.edge_count(i) {
                return i;
            }
        }
        unreachable!()
    }
}
