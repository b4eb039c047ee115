//! Comments: to the end of a line, and nested blocks.
ghost use Rattle.std.specs.Prelude.{◌≡◌, eqb};
ghost use Rattle.chars.specs.View.{folded_from};
ghost use Rattle.runs.specs.Comments.{line_comment, seen, block_turn, block_comment};
ghost use Rattle.runs.specs.inner.Runs.{Sound, passed_by};

use crate::{Block, Ran};
use answers::{Place, Position, Refusal};

fn is_newline(c: u32) -> bool
    ensures { result ≡ eqb c 10 }
{
    c == 10
}

// Behind `//`: up to and with the next newline, or to the end.
pub fn line_comment(text: &[u8], from: Place) -> Ran
    ensures { result ≡ line_comment (folded_from text.now from) }
{
    let mut at = from;
    loop {
        let here = screening::plain_end(text, at, [10, 10, 13]);
        match chars::folded_at(text, here)? {
            None => return Ok(here),
            Some((c, next)) if is_newline(c) => return Ok(next),
            Some((_, next)) => at = next,
        }
    }
}

impl Block {
    // A character that completes no pair.
    #[tactic(auto, unfolding(crate::specs::Comments::seen))]
    fn seen(depth: u32, c: u32) -> Block
        ensures { result ≡ seen depth c }
    {
        match c {
            47 => Block::Slash(depth),
            42 => Block::Star(depth),
            _ => Block::Other(depth),
        }
    }

    // What a character does in a block comment: none where it closes the outermost.
    #[tactic(auto, unfolding(crate::specs::Comments::block_turn, crate::specs::inner::Runs::depth_of))]
    fn turn(self, c: u32) -> Option<Block>
        requires { Sound self }
        ensures { result ≡ block_turn self c }
    {
        match (self, c) {
            (Block::Slash(depth), 42) => Some(Block::Other(depth + 1)),
            (Block::Star(1), 47) => None,
            (Block::Star(depth), 47) => Some(Block::Other(depth - 1)),
            (Block::Other(depth) | Block::Slash(depth) | Block::Star(depth), _) => {
                Some(Block::seen(depth, c))
            }
        }
    }

    // Past plain text in which no pair can begin.
    #[tactic(auto, unfolding(crate::specs::inner::Runs::passed_by))]
    fn passed(self, text: &[u8], at: Place) -> Place
        ensures { result ≡ passed_by self text.now at }
    {
        match self {
            Block::Other(_) => screening::plain_end(text, at, [47, 42, 13]),
            Block::Slash(_) | Block::Star(_) => at,
        }
    }
}

// Behind `/*`: to the end of the outermost comment, whose start in the map is `start`.
pub fn block_comment(text: &[u8], start: Position, from: Place) -> Ran
    ensures { result ≡ block_comment start (Block.Other 1) (folded_from text.now from) }
{
    let mut at = from;
    let mut block = Block::Other(1);
    loop {
        let here = block.passed(text, at);
        let Some((c, next)) = chars::folded_at(text, here)? else {
            return Err(Refusal::UnterminatedComment(start));
        };
        let Some(turned) = block.turn(c) else {
            return Ok(next);
        };
        block = turned;
        at = next;
    }
}
