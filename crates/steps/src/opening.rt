//! Opening: what a whole text is checked for before it is stepped through.
ghost use Rattle.std.specs.Prelude.{◌≡◌};
ghost use Rattle.steps.specs.Steps.{marked, opened};

use answers::{Place, Refusal};

// The text starts with a byte order mark.
#[tactic(auto, using(crate::proofs::StepLaws::starts_marked))]
fn is_marked(text: &[u8]) -> bool
    ensures { result ≡ marked text.now }
{
    text.starts_with(b"\xEF\xBB\xBF")
}

// Opens a text at an offset in the map: 1, 2, 3, then screening.
#[tactic(auto, unfolding(crate::specs::Steps::opened, crate::specs::Steps::opened_by, answers::specs::Caps::first_of))]
pub fn open(text: &[u8], offset: u32) -> Result<Place, Refusal>
    ensures { result ≡ opened text.now offset }
{
    answers::check_text(offset, text.len())?;
    screening::detect_invalid_input(text)?;
    Ok(Place(if is_marked(text) { 3 } else { 0 }))
}
