//! The public calls as hosts make them: C functions, which the static library `witbox_c` exports. `include/witbox.h` tells a host programmer
//! what each takes and leaves. A slice is a pointer and a count. An answer is a struct of numbers that begins with number, position and
//! detail. A cursor is lent as its one number.
#![tactic(auto)]

mod answering;

ghost use Rattle.std.specs.Prelude.{◌≡◌};
ghost use Rattle.answers.specs.Places.{place};
ghost use Rattle.strings.specs.Decoding.{decoded};
ghost use Rattle.names.specs.Names.{plain_id, explicit_id};
ghost use Rattle.steps.specs.Steps.{opened, next_raw_at, next_at};
ghost use Rattle.wants.specs.Wanted.{eat_at, expect_at};
ghost use Rattle.listing.specs.declared.Listing.TheVariants.{Raw, Filtered};
ghost use Rattle.listing.specs.Listings.{listed};
ghost use Rattle.clerk.specs.Sorted.{sorted};
ghost use Rattle.planner.specs.Proposed.{checked_order, proposed};
ghost use Rattle.witbox.specs.Hosts.{span, open_numbers, step_numbers, count_numbers, name_numbers, sort_numbers, verdict_numbers};

use answers::{Place, Position, Span};
use listing::Listing;

// struct witbox_opened. Here and below, number, position and detail are fields of each struct, as in include/witbox.h.
#[repr(C)]
#[derive(Clone, Copy, Debug, PartialEq, Eq)]
pub struct OpenAnswer {
    pub number: u32,
    pub position: u32,
    pub detail: u32,
    pub cursor: u32,
}

// struct witbox_step
#[repr(C)]
#[derive(Clone, Copy, Debug, PartialEq, Eq)]
pub struct StepAnswer {
    pub number: u32,
    pub position: u32,
    pub detail: u32,
    pub kind: u32,
    pub start: u32,
    pub end: u32,
}

// struct witbox_listed and struct witbox_decoded
#[repr(C)]
#[derive(Clone, Copy, Debug, PartialEq, Eq)]
pub struct CountAnswer {
    pub number: u32,
    pub position: u32,
    pub detail: u32,
    pub count: u32,
}

// struct witbox_named
#[repr(C)]
#[derive(Clone, Copy, Debug, PartialEq, Eq)]
pub struct NameAnswer {
    pub number: u32,
    pub position: u32,
    pub detail: u32,
    pub place: u32,
    pub length: u32,
}

// struct witbox_sorted
#[repr(C)]
#[derive(Clone, Copy, Debug, PartialEq, Eq)]
pub struct SortAnswer {
    pub number: u32,
    pub position: u32,
    pub detail: u32,
    pub settled: u32,
}

// struct witbox_verdict
#[repr(C)]
#[derive(Clone, Copy, Debug, PartialEq, Eq)]
pub struct VerdictAnswer {
    pub number: u32,
    pub position: u32,
    pub detail: u32,
}

#[unsafe(no_mangle)]
pub extern "C" fn witbox_open(text: &[u8], offset: u32) -> OpenAnswer
    ensures { result ≡ open_numbers (opened text.now offset) }
{
    OpenAnswer::from(steps::open(text, offset))
}

#[unsafe(no_mangle)]
pub extern "C" fn witbox_next_raw(text: &[u8], offset: u32, cursor: &mut u32) -> StepAnswer
    ensures { (result, cursor.new) ≡ step_numbers (next_raw_at text.now offset (place cursor.old)) }
{
    answering::step_answer(steps::next_raw_at(text, offset, Place(*cursor)), cursor)
}

#[unsafe(no_mangle)]
pub extern "C" fn witbox_next(text: &[u8], offset: u32, cursor: &mut u32) -> StepAnswer
    ensures { (result, cursor.new) ≡ step_numbers (next_at text.now offset (place cursor.old)) }
{
    answering::step_answer(steps::next_at(text, offset, Place(*cursor)), cursor)
}

#[unsafe(no_mangle)]
pub extern "C" fn witbox_eat(text: &[u8], offset: u32, wanted: u32, cursor: &mut u32) -> StepAnswer
    ensures { (result, cursor.new) ≡ step_numbers (eat_at text.now offset wanted (place cursor.old)) }
{
    answering::step_answer(wants::eat_at(text, offset, wanted, Place(*cursor)), cursor)
}

#[unsafe(no_mangle)]
pub extern "C" fn witbox_expect(
    text: &[u8],
    offset: u32,
    wanted: u32,
    cursor: &mut u32,
) -> StepAnswer
    ensures { (result, cursor.new) ≡ step_numbers (expect_at text.now offset wanted (place cursor.old)) }
{
    answering::step_answer(
        wants::expect_at(text, offset, wanted, Place(*cursor)),
        cursor,
    )
}

#[unsafe(no_mangle)]
#[tactic(auto, unfolding(crate::specs::Hosts::count_numbers))]
pub extern "C" fn witbox_list_raw(text: &[u8], offset: u32, table: &mut [u32]) -> CountAnswer
    ensures { (result, table.new) ≡ count_numbers (listed Raw text.now offset table.old) }
{
    CountAnswer::from(listing::list(text, offset, Listing::Raw, table))
}

#[unsafe(no_mangle)]
#[tactic(auto, unfolding(crate::specs::Hosts::count_numbers))]
pub extern "C" fn witbox_list(text: &[u8], offset: u32, table: &mut [u32]) -> CountAnswer
    ensures { (result, table.new) ≡ count_numbers (listed Filtered text.now offset table.old) }
{
    CountAnswer::from(listing::list(text, offset, Listing::Filtered, table))
}

#[unsafe(no_mangle)]
#[tactic(auto, unfolding(crate::specs::Hosts::count_numbers))]
pub extern "C" fn witbox_string_literal(
    text: &[u8],
    offset: u32,
    start: u32,
    end: u32,
    buffer: &mut [u8],
) -> CountAnswer
    ensures { (result, buffer.new) ≡ count_numbers (decoded text.now offset (span start end) buffer.old) }
{
    let span = Span {
        start: Position(start),
        end: Position(end),
    };
    CountAnswer::from(strings::string_literal(text, offset, span, buffer))
}

#[unsafe(no_mangle)]
#[tactic(auto, using(crate::proofs::ForwardLaws::plain_forward))]
pub extern "C" fn witbox_parse_id(text: &[u8], offset: u32, start: u32, end: u32) -> NameAnswer
    ensures { result ≡ name_numbers (plain_id text.now offset (span start end)) }
{
    let span = Span {
        start: Position(start),
        end: Position(end),
    };
    answering::name_answer(names::validate_id(text, offset, span))
}

#[unsafe(no_mangle)]
#[tactic(auto, using(crate::proofs::ForwardLaws::explicit_forward))]
pub extern "C" fn witbox_parse_explicit_id(
    text: &[u8],
    offset: u32,
    start: u32,
    end: u32,
) -> NameAnswer
    ensures { result ≡ name_numbers (explicit_id text.now offset (span start end)) }
{
    let span = Span {
        start: Position(start),
        end: Position(end),
    };
    answering::name_answer(names::validate_explicit_id(text, offset, span))
}

#[unsafe(no_mangle)]
#[tactic(auto, unfolding(crate::specs::Hosts::sort_numbers))]
pub extern "C" fn witbox_toposort(sheet: &[u32], names: &[u8], order: &mut [u32]) -> SortAnswer
    ensures { (result, order.new) ≡ sort_numbers (sorted sheet.now names.now order.old) }
{
    SortAnswer::from(clerk::toposort(sheet, names, order))
}

#[unsafe(no_mangle)]
pub extern "C" fn witbox_check_order(sheet: &[u32], names: &[u8], list: &[u32]) -> VerdictAnswer
    ensures { result ≡ verdict_numbers (checked_order sheet.now names.now list.now) }
{
    VerdictAnswer::from(planner::check_order(sheet, names, list))
}

#[unsafe(no_mangle)]
#[tactic(auto, unfolding(crate::specs::Hosts::sort_numbers))]
pub extern "C" fn witbox_propose(sheet: &[u32], names: &[u8], list: &mut [u32]) -> SortAnswer
    ensures { (result, list.new) ≡ sort_numbers (proposed sheet.now names.now list.old) }
{
    SortAnswer::from(planner::propose(sheet, names, list))
}
