//! The words that the other rooms' contracts are written in (`specs/Terms.antt`), with those of them that code asks too. Each is the library's
//! own test, and stays a function, since contracts above cite its definition.
#![tactic(auto)]

ghost use Rattle.std.specs.Prelude.{◌≡◌, min};
ghost use Rattle.terms.specs.Terms;
ghost use Rattle.terms.specs.Terms.{same_bytes};

// x is one of low, …, high.
#[tactic(auto, unfolding(crate::specs::Terms::within))]
pub fn within(low: u32, high: u32, x: u32) -> bool
    ensures { result ≡ Terms.within low high x }
{
    (low..=high).contains(&x)
}

// The lesser of two. A function of its own, so that a loop over it has no branch.
pub fn least(x: u8, y: u8) -> u8
    ensures { result ≡ min x y }
{
    x.min(y)
}

// The two are the same bytes.
#[tactic(auto, using(crate::proofs::BytesLaws::same_pointwise))]
pub fn same(a: &[u8], b: &[u8]) -> bool
    ensures { result ≡ same_bytes a.now b.now }
{
    a == b
}
