//! Each answer as numbers. What an answer has not is 0.
ghost use Rattle.std.specs.Prelude.{◌≡◌};
ghost use Rattle.witbox.specs.Hosts.{open_numbers, no_token, refused_step, step_of, step_numbers, count_of, name_numbers, sort_of, verdict_numbers};
ghost use Rattle.witbox.specs.inner.Forward.{Forward};

use crate::{CountAnswer, NameAnswer, OpenAnswer, SortAnswer, StepAnswer, VerdictAnswer};
use answers::{Numbers, Place, Refusal, Verdict};
use clerk::Sorted;
use names::Id;
use steps::{Moved, Step};

impl From<Result<Place, Refusal>> for OpenAnswer {
    ghost from_gives = { λ opened answer. answer ≡ open_numbers opened };

    #[tactic(auto, unfolding(crate::specs::Hosts::open_numbers))]
    fn from(opened: Result<Place, Refusal>) -> OpenAnswer {
        match opened {
            Ok(at) => OpenAnswer {
                number: 0,
                position: 0,
                detail: 0,
                cursor: at.0,
            },
            Err(refusal) => {
                let told = refusal.numbers();
                OpenAnswer {
                    number: told.number,
                    position: told.position,
                    detail: told.detail,
                    cursor: 0,
                }
            }
        }
    }
}

// The end of the text, and no from eat, are kind 67.
fn nothing() -> StepAnswer
    ensures { result ≡ no_token }
{
    StepAnswer {
        number: 0,
        position: 0,
        detail: 0,
        kind: 67,
        start: 0,
        end: 0,
    }
}

#[tactic(auto, unfolding(crate::specs::Hosts::refused_step))]
fn refused_step(refusal: Refusal) -> StepAnswer
    ensures { result ≡ refused_step refusal }
{
    let told = refusal.numbers();
    StepAnswer {
        number: told.number,
        position: told.position,
        detail: told.detail,
        kind: 0,
        start: 0,
        end: 0,
    }
}

impl From<Step> for StepAnswer {
    ghost from_gives = { λ step answer. answer ≡ step_of step };

    #[tactic(auto, unfolding(crate::specs::Hosts::step_of))]
    fn from(step: Step) -> StepAnswer {
        match step {
            Ok(Some((kind, span))) => StepAnswer {
                number: 0,
                position: 0,
                detail: 0,
                kind: kind.kind() as u32,
                start: span.start.0,
                end: span.end.0,
            },
            Ok(None) => nothing(),
            Err(refusal) => refused_step(refusal),
        }
    }
}

// The place that a step leaves goes to the cursor, whatever it answers.
#[tactic(auto, unfolding(crate::specs::Hosts::step_numbers))]
pub(crate) fn step_answer(found: Moved, cursor: &mut u32) -> StepAnswer
    ensures { (result, cursor.new) ≡ step_numbers found }
{
    *cursor = found.at.0;
    StepAnswer::from(found.step)
}

// How many rows a listing has, or bytes a string. What differs from `OpenAnswer` is a field's name, as in include/witbox.h.
impl From<Result<u32, Refusal>> for CountAnswer {
    ghost from_gives = { λ counted answer. answer ≡ count_of counted };

    #[tactic(auto, unfolding(crate::specs::Hosts::count_of, crate::specs::Hosts::refused_count))]
    fn from(counted: Result<u32, Refusal>) -> CountAnswer {
        match counted {
            Ok(count) => CountAnswer {
                number: 0,
                position: 0,
                detail: 0,
                count,
            },
            Err(refusal) => {
                let told = refusal.numbers();
                CountAnswer {
                    number: told.number,
                    position: told.position,
                    detail: told.detail,
                    count: 0,
                }
            }
        }
    }
}

// No conversion: only an identifier that does not run backwards has a length.
#[tactic(auto, unfolding(crate::specs::Hosts::name_numbers, crate::specs::inner::Forward::Forward))]
pub(crate) fn name_answer(named: Result<Id, Refusal>) -> NameAnswer
    requires { Forward named }
    ensures { result ≡ name_numbers named }
{
    match named {
        Ok(id) => NameAnswer {
            number: 0,
            position: 0,
            detail: 0,
            place: id.first.0,
            length: id.last.0 - id.first.0,
        },
        Err(refusal) => {
            let told = refusal.numbers();
            NameAnswer {
                number: told.number,
                position: told.position,
                detail: told.detail,
                place: 0,
                length: 0,
            }
        }
    }
}

impl From<Sorted> for SortAnswer {
    ghost from_gives = { λ sorted answer. answer ≡ sort_of sorted };

    #[tactic(auto, unfolding(crate::specs::Hosts::sort_of))]
    fn from(sorted: Sorted) -> SortAnswer {
        let told = Numbers::from(sorted.verdict);
        SortAnswer {
            number: told.number,
            position: told.position,
            detail: told.detail,
            settled: sorted.settled,
        }
    }
}

impl From<Verdict> for VerdictAnswer {
    ghost from_gives = { λ verdict answer. answer ≡ verdict_numbers verdict };

    #[tactic(auto, unfolding(crate::specs::Hosts::verdict_numbers))]
    fn from(verdict: Verdict) -> VerdictAnswer {
        let told = Numbers::from(verdict);
        VerdictAnswer {
            number: told.number,
            position: told.position,
            detail: told.detail,
        }
    }
}
