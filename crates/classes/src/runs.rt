//! Runs of keylike continuations: an identifier from its second character on.
ghost use Rattle.std.specs.Prelude.{◌≡◌};
ghost use Rattle.chars.specs.View.{folded_from};
ghost use Rattle.classes.specs.inner.Runs.{keylike_end};

use crate::characters::is_keylike_continue;
use answers::Place;

// Where a run of keylike continuations ends.
#[tactic(auto, using(crate::proofs::RunLaws::run_steps))]
pub fn keylike_end(text: &[u8], from: Place) -> Place
    ensures { result ≡ keylike_end (folded_from text.now from) }
{
    let mut at = from;
    while let Ok(Some((c, next))) = chars::folded_at(text, at)
        && is_keylike_continue(c)
    {
        at = next;
    }
    at
}
