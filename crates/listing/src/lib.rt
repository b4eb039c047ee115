//! Listings: the rows of a text's tokens, in a table that the caller lends.
#![tactic(auto)]

mod stage;

ghost use Rattle.std.specs.Prelude.{◌≡◌, ◌*◌, ◌≤◌, length, min};
ghost use Rattle.listing.specs.Rows.{row_words};
ghost use Rattle.listing.specs.Listings.{row_cap, listed};

use answers::Refusal;

// Which tokens have a row: all of them, or none that is a blank or a comment. An enum, and no closure: C has a call for each, and contracts name it.
#[derive(Clone, Copy, Debug, PartialEq, Eq)]
pub enum Listing {
    Raw,
    Filtered,
}

// A listing by way of a stage of so many words: only the end of the text decides whether any row is written, so all are staged first, and copied once.
fn list_with<const WORDS: usize>(
    text: &[u8],
    offset: u32,
    listing: Listing,
    table: &mut [u32],
) -> Result<u32, Refusal>
    requires { (min (length text.now) row_cap * row_words ≤ WORDS) × (WORDS ≤ row_cap * row_words) }
    ensures { (result, table.new) ≡ listed listing text.now offset table.old }
{
    let from = steps::open(text, offset)?;
    let mut staged = [0u32; WORDS];
    let count = stage::rows_from(text, offset, from, listing, &mut staged)?;
    stage::deliver(count, &staged, table)
}

// Opens a text, steps to its end, then judges 24 and 25. A text has no more rows than bytes, and a small stage takes less time to make.
pub fn list(text: &[u8], offset: u32, listing: Listing, table: &mut [u32]) -> Result<u32, Refusal>
    ensures { (result, table.new) ≡ listed listing text.now offset table.old }
{
    match text.len() {
        0..=512 => list_with::<1536>(text, offset, listing, table),
        513..=1024 => list_with::<3072>(text, offset, listing, table),
        1025..=2048 => list_with::<6144>(text, offset, listing, table),
        _ => list_with::<12288>(text, offset, listing, table),
    }
}
