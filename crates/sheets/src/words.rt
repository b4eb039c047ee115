//! The words of a sheet, as sizes.
ghost use Rattle.std.specs.Prelude.{◌≡◌, ◌+◌, ◌*◌, ◌<◌, ◌≤◌, length, get_or, IfOk};
ghost use Rattle.answers.specs.Caps.{first_of};
ghost use Rattle.sheets.specs.Words as W;
ghost use Rattle.sheets.specs.Checks.{headed, runs_on, head_verdict, count_verdict};
ghost use Rattle.sheets.specs.inner.Asked.{Counted};
ghost use Rattle.sheets.specs.inner.Found.{outcome};

use answers::Refusal;

// Words whose header is there, with its counts in the caps.
#[derive(Clone, Copy)]
pub(crate) struct Words<'a> {
    pub(crate) all: &'a [u32],
    ghost counted: { Counted all.now },
}

impl<'a> Words<'a> {
    // Under five words 26, then 27.
    #[tactic(auto, unfolding(crate::specs::Checks::head_verdict, crate::specs::Checks::count_verdict, answers::specs::Caps::first_of))]
    pub(crate) fn read(all: &'a [u32]) -> Result<Self, Refusal>
        ensures verdict { outcome result ≡ first_of (head_verdict all.now) (count_verdict all.now) }
        ensures same { IfOk result (λ w. w.all.now ≡ all.now) }
    {
        if all.len() < 5 {
            return Err(Refusal::MalformedSheet);
        }
        if 256 < all[0] || 2048 < all[1] {
            return Err(Refusal::TooManyItems);
        }
        Ok(Words { all })
    }

    fn word(self, i: usize) -> usize
        requires { i < length self.all.now }
        ensures { (result ≡ get_or self.entry.all.now i 0) × (result < 4294967296) }
    {
        self.all[i] as usize
    }

    pub(crate) fn items(self) -> usize
        ensures { result ≡ W.items self.entry.all.now }
    {
        self.word(0)
    }

    pub(crate) fn listed(self) -> usize
        ensures { result ≡ W.listed self.entry.all.now }
    {
        self.word(1)
    }

    // Where a row's name starts in the names, and its length.
    pub(crate) fn name_at(self, row: usize) -> usize
        requires { 5 + 4 * row + 4 ≤ length self.all.now }
        ensures { (result ≡ W.name_at self.entry.all.now row) × (result < 4294967296) }
    {
        self.word(5 + 4 * row)
    }

    pub(crate) fn name_length(self, row: usize) -> usize
        requires { 5 + 4 * row + 4 ≤ length self.all.now }
        ensures { (result ≡ W.name_length self.entry.all.now row) × (result < 4294967296) }
    {
        self.word(5 + 4 * row + 1)
    }

    // An item's first edge, and how many edges it has.
    pub(crate) fn first_edge(self, i: usize) -> usize
        requires { 5 + 4 * i + 4 ≤ length self.all.now }
        ensures { (result ≡ W.first_edge self.entry.all.now i) × (result < 4294967296) }
    {
        self.word(5 + 4 * i + 2)
    }

    pub(crate) fn edge_count(self, i: usize) -> usize
        requires { 5 + 4 * i + 4 ≤ length self.all.now }
        ensures { (result ≡ W.edge_count self.entry.all.now i) × (result < 4294967296) }
    {
        self.word(5 + 4 * i + 3)
    }

    // The header's words agree with each other and with the word count.
    #[tactic(auto, unfolding(crate::specs::Checks::headed))]
    pub(crate) fn headed(self) -> bool
        ensures { result ≡ headed self.entry.all.now }
    {
        let items_end = 5 + 4 * self.items();
        let rows_end = items_end + 4 * self.listed();
        self.word(2) == 5
            && self.word(3) == items_end
            && self.word(4) == rows_end
            && self.all.len() == rows_end
    }

    // The items' edges run on without a gap, from 0 to the number of edges.
    pub(crate) fn runs_on(self) -> bool
        requires { 5 + 4 * W.items self.all.now ≤ length self.all.now }
        ensures { result ≡ runs_on self.entry.all.now 0 (W.items self.entry.all.now) 0 }
    {
        let mut k = 0;
        for i in 0..self.items() {
            if self.first_edge(i) != k {
                return false;
            }
            k += self.edge_count(i);
        }
        k == self.listed()
    }
}
