//! Plain text: bytes that are characters by themselves and that screening lets pass, passed over 64 at a time.
ghost use Rattle.std.specs.Prelude.{◌≡◌, not, ◌+◌, ◌-◌, ◌≤◌, length, if◌then◌else◌};
ghost use Rattle.terms.specs.Terms.{first};
ghost use Rattle.screening.specs.inner.Plain.{is_plain, halts, halts_at, plain_end};

use answers::Place;

// A byte that is no character by itself, or that screening may refuse.
// As one `matches!` or one condition it misses the bar of speed: the loop below then takes half as many instructions again.
#[tactic(auto, unfolding(crate::specs::inner::Plain::is_plain, terms::specs::Terms::within))]
fn odd(b: u8) -> bool
    ensures { result ≡ not (is_plain b) }
{
    if b < 0x20 {
        if b == 9 {
            return false;
        }
        if b == 10 {
            return false;
        }
        return b != 13;
    }
    0x7F <= b
}

// A byte at which the plain text less these bytes ends.
fn stops(b: u8, less: [u8; 3]) -> bool
    ensures { result ≡ halts less b }
{
    less.contains(&b) || odd(b)
}

// i where the byte stops, else 64. No Option: the loop over it takes the least of 64 numbers at a time, and has no branch.
fn stop_at(b: u8, less: [u8; 3], i: u8) -> u8
    ensures { result ≡ (if halts less b then i else 64) }
{
    if stops(b, less) { i } else { 64 }
}

// The first of the 64 places from k on whose byte stops, or the one behind them.
// The loop goes through all of them, so that it has no branch and takes many bytes at a time.
fn stop_in(text: &[u8], k: usize, less: [u8; 3]) -> usize
    requires { k + 64 ≤ length text.now }
    ensures { result ≡ first (halts_at text.now less) k 64 }
{
    let mut n: u8 = 64;
    for i in 0..64 {
        n = terms::least(n, stop_at(text[k + i], less, i as u8));
    }
    k + n as usize
}

// The first of the places from, …, end - 1 whose byte stops; else the end.
fn stop_near(text: &[u8], from: usize, end: usize, less: [u8; 3]) -> usize
    requires { end ≤ length text.now }
    ensures { result ≡ first (halts_at text.now less) from (end - from) }
{
    for k in from..end {
        if stops(text[k], less) {
            return k;
        }
    }
    from.max(end)
}

// The first place from `at` on whose byte is one of `less` or not plain; else the end.
// Joined with each caller, so that the bytes of `less` are constants in the loop.
#[inline(always)]
pub fn plain_end(text: &[u8], at: Place, less: [u8; 3]) -> Place
    ensures { result ≡ plain_end text.now less at }
{
    let end = chars::limit(text);
    let mut k = at.0 as usize;
    // a `for` over chunks is no plainer: the search of what is left behind the last 64 goes on from k
    while k + 64 <= end {
        // characters of several bytes often stand together
        if stops(text[k], less) {
            return Place(k as u32);
        }
        let stop = stop_in(text, k, less);
        if stop < k + 64 {
            return Place(stop as u32);
        }
        // that is `stop`, but the next 64 need not wait for it
        k = k + 64;
    }
    Place(stop_near(text, k, end, less) as u32)
}
