//! The walk of a listing: rows are staged as the tokens are read, and delivered when the text has ended.
ghost use Rattle.std.specs.Prelude.{◌≡◌, ◌+◌, ◌*◌, ◌≤◌, length, Ok};
ghost use Rattle.answers.specs.Caps.{cap};
ghost use Rattle.steps.specs.Stream.{tokens_from};
ghost use Rattle.listing.specs.Rows;
ghost use Rattle.listing.specs.Rows.{row_words, words_of, row_of, rows_of};
ghost use Rattle.listing.specs.Listings.{row_cap};
ghost use Rattle.listing.specs.inner.Staging.{put, laid, Staged, delivered};

use crate::Listing;
use answers::{Place, Refusal, Span};
use kinds::Token;
use tokens::Lexeme;

// The words of a row, and the rows that one listing may have.
const ROW_WORDS: usize = 3;

const ROW_CAP: u32 = 4096;

// Whether a kind has a row.
#[tactic(auto, unfolding(crate::specs::Rows::keeps))]
fn keeps(listing: Listing, kind: Token) -> bool
    ensures { result ≡ Rows.keeps listing kind }
{
    match listing {
        Listing::Raw => true,
        Listing::Filtered => !steps::is_blank(kind),
    }
}

// The words of a row. They are made here alone.
#[tactic(auto, unfolding(crate::specs::inner::Staging::put, crate::specs::Rows::words_of))]
fn put_row(rows: &mut [u32], at: usize, kind: Token, span: Span)
    requires { at + row_words ≤ length rows.old }
    ensures { rows.new ≡ put at (words_of (record { kind = kind; span = span })) rows.old }
{
    let words = [kind.kind() as u32, span.start.0, span.end.0];
    rows[at..at + ROW_WORDS].copy_from_slice(&words);
}

// The row of a token that is kept, behind the rows so far where the stage has room for it; how many rows there are then.
#[tactic(auto, using(crate::proofs::StageLaws::laid_not, crate::proofs::StageLaws::laid_full, crate::proofs::StageLaws::laid_row))]
fn stage_row(staged: &mut [u32], count: u32, listing: Listing, lexeme: Lexeme) -> u32
    requires { count ≤ cap }
    ensures { (result, staged.new) ≡ laid (row_of listing lexeme.kind lexeme.span) count staged.old }
{
    if !keeps(listing, lexeme.kind) {
        return count;
    }
    let word = count as usize * ROW_WORDS;
    if word + ROW_WORDS <= staged.len() {
        put_row(staged, word, lexeme.kind, lexeme.span);
    }
    count + 1
}

// The rows from a place on, as many as the stage has room for, and the count of all. The tokens past a full stage are read too: one of them may be refused.
pub(crate) fn rows_from(
    text: &[u8],
    offset: u32,
    from: Place,
    listing: Listing,
    staged: &mut [u32],
) -> Result<u32, Refusal>
    requires { (from.0 ≤ length text.now) × (length text.now ≤ cap) }
    ensures { Staged (length text.now) (rows_of listing (tokens_from text.now offset from)) result staged.old staged.new }
{
    let mut at = from;
    let mut count = 0;
    while let Some(lexeme) = tokens::next_raw(text, offset, at)? {
        count = stage_row(staged, count, listing, lexeme);
        at = lexeme.next;
    }
    Ok(count)
}

// Judges 24 and 25 when the text has ended, and only then writes. The stage has the rows of a count that is under the cap.
#[tactic(auto, unfolding(crate::specs::inner::Staging::delivered))]
pub(crate) fn deliver(count: u32, staged: &[u32], table: &mut [u32]) -> Result<u32, Refusal>
    requires { count ≤ row_cap → count * row_words ≤ length staged.now }
    ensures { (result, table.new) ≡ delivered (Ok count) staged.now table.old }
{
    if count > ROW_CAP {
        return Err(Refusal::TooManyRows(count));
    }
    let words = count as usize * ROW_WORDS;
    if words > table.len() {
        return Err(Refusal::NoRoom(words as u32));
    }
    table[..words].copy_from_slice(&staged[..words]);
    Ok(count)
}
