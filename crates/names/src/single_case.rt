//! Identifiers whose letters are all of one case, as most are: sixteen bytes at a time, with no branch on any of them.
ghost use Rattle.std.specs.Prelude.{◌≡◌, ◌+◌, ◌-◌, ◌<◌, ◌≤◌, min, true, false, not, ◌&&◌, ltb, length, nat_lt, if◌then◌else◌};
ghost use Rattle.terms.specs.Terms.{within};
ghost use Rattle.answers.specs.Caps.{accepted};
ghost use Rattle.answers.specs.declared.Position.{Position};
ghost use Rattle.chars.specs.View.{chars_from};
ghost use Rattle.parts.specs.declared.Part.{Part};
ghost use Rattle.parts.specs.Parts.{parts_from};
ghost use Rattle.names.specs.inner.OneCase.{case_of, follows, Follow};

use answers::Place;

// The bytes from a place to another, seventeen at most. The difference is taken of the places' last bytes, so that it stays a byte.
// Kept for speed: `(end - at).min(17) as u8` makes the lanes of `any_odd` eight bytes wide.
fn size_up_to(at: usize, end: usize) -> u8
    requires { at ≤ end }
    ensures { result ≡ min (end - at) 17 }
{
    if 17 < end - at {
        return 17;
    }
    ((end % 256) as u8).wrapping_sub((at % 256) as u8)
}

// A case of letters: where its 26 begin.
#[derive(Clone, Copy)]
struct Case {
    low: u8,
    ghost small: { low ≤ 0x61 },
}

impl Case {
    // The case of a first letter.
    #[tactic(auto, unfolding(crate::specs::inner::OneCase::case_of), using(crate::proofs::OneCaseLaws::case_small))]
    fn of(b: u8) -> Self
        ensures { result.low ≡ case_of b }
    {
        Case {
            low: if b < 0x61 { 0x41 } else { 0x61 },
        }
    }

    // The byte is one of the case's letters.
    #[tactic(auto, using(crate::proofs::OneCaseLaws::wrapped))]
    fn has(self, b: u8) -> bool
        ensures { result ≡ within self.low (self.low + 25) b }
    {
        b.wrapping_sub(self.low) < 26
    }

    // The byte b may stand behind p.
    #[tactic(auto, unfolding(crate::specs::inner::OneCase::follows))]
    fn follows(self, p: u8, b: u8) -> bool
        ensures { result ≡ follows self.low p b }
    {
        self.has(b) || terms::within(0x30, 0x39, b as u32) || b == 0x2D && p != 0x2D
    }

    // No only where of the n bytes from `at` on each but the first may stand behind the one before it. Seventeen bytes are read.
    // Both tests are made of each byte, by `&`: `&&`, or a search that stops, branches on each and takes twice the instructions.
    fn any_odd(self, text: &[u8], at: usize, n: u8) -> bool
        requires { (at + 17 ≤ length text.now) × (n ≤ 17) }
        ensures { result ≡ false → Follow text.now self.low at (at + n) }
    {
        let mut any = false;
        for i in 0..16u8 {
            let k = at + i as usize;
            any |= (i + 1 < n) & !self.follows(text[k], text[k + 1]);
        }
        any
    }

    // Each byte behind the first may stand behind the one before it: one by one, where the text has too few bytes to read more.
    fn joins_singly(self, text: &[u8], from: usize, end: usize) -> bool
        requires { (from < end) × (end ≤ length text.now) }
        ensures { result ≡ true → Follow text.now self.low from end }
    {
        for k in from + 1..end {
            if !self.follows(text[k - 1], text[k]) {
                return false;
            }
        }
        true
    }

    // The same, sixteen at a time.
    fn joins(self, text: &[u8], from: usize, end: usize) -> bool
        requires { (from < end) × (end ≤ length text.now) }
        ensures { result ≡ true → Follow text.now self.low from end }
    {
        for at in (from..end - 1).step_by(16) {
            if text.len() < at + 17 {
                return self.joins_singly(text, at, end);
            }
            if self.any_odd(text, at, size_up_to(at, end)) {
                return false;
            }
        }
        true
    }
}

// Yes only where the parts are accepted.
pub(crate) fn one_case(text: &[u8], from: Place, end: Place) -> bool
    requires { (end.0 ≤ length text.now) × (end.0 ≤ 65536) }
    ensures { result ≡ true → (q : Position) → parts_from q end Part.First (chars_from text.now from) ≡ accepted }
{
    let at = from.0 as usize;
    let to = end.0 as usize;
    if to <= at || text[to - 1] == 0x2D {
        return false;
    }
    let b = text[at];
    let case = Case::of(b);
    case.has(b) && case.joins(text, at, to)
}
