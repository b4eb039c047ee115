//! The static library for hosts: the calls of the room `witbox`, exported to C under their names, with their clauses. `include/witbox.h` tells a
//! host programmer what each takes and leaves. A slice is a pointer and a count. An answer is a struct of numbers that begins with number,
//! position and detail. A cursor is lent as its one number.
#![tactic(auto)]

ghost use Rattle.std.specs.Prelude.{◌≡◌};
ghost use Rattle.answers.specs.Places.{place};
ghost use Rattle.strings.specs.Decoding.{decoded};
ghost use Rattle.names.specs.Names.{plain_id, explicit_id};
ghost use Rattle.steps.specs.Steps.{opened, next_raw_at, next_at};
ghost use Rattle.wants.specs.Wanted.{eat_at, expect_at};
ghost use Rattle.listing.specs.declared.Listing.TheVariants.{Raw, Filtered};
ghost use Rattle.listing.specs.Listings.{listed};
ghost use Rattle.clerk.specs.Sorted.{sorted};
ghost use Rattle.planner.specs.Proposed.{checked_order, proposed};
ghost use Rattle.witbox.specs.Hosts.{span, open_numbers, step_numbers, count_numbers, name_numbers, sort_numbers, verdict_numbers};

use witbox::{CountAnswer, NameAnswer, OpenAnswer, SortAnswer, StepAnswer, VerdictAnswer};

#[unsafe(no_mangle)]
pub extern "C" fn witbox_open(text: &[u8], offset: u32) -> OpenAnswer
    ensures { result ≡ open_numbers (opened text.now offset) }
{
    witbox::witbox_open(text, offset)
}

#[unsafe(no_mangle)]
pub extern "C" fn witbox_next_raw(text: &[u8], offset: u32, cursor: &mut u32) -> StepAnswer
    ensures { (result, cursor.new) ≡ step_numbers (next_raw_at text.now offset (place cursor.old)) }
{
    witbox::witbox_next_raw(text, offset, cursor)
}

#[unsafe(no_mangle)]
pub extern "C" fn witbox_next(text: &[u8], offset: u32, cursor: &mut u32) -> StepAnswer
    ensures { (result, cursor.new) ≡ step_numbers (next_at text.now offset (place cursor.old)) }
{
    witbox::witbox_next(text, offset, cursor)
}

#[unsafe(no_mangle)]
pub extern "C" fn witbox_eat(text: &[u8], offset: u32, wanted: u32, cursor: &mut u32) -> StepAnswer
    ensures { (result, cursor.new) ≡ step_numbers (eat_at text.now offset wanted (place cursor.old)) }
{
    witbox::witbox_eat(text, offset, wanted, cursor)
}

#[unsafe(no_mangle)]
pub extern "C" fn witbox_expect(
    text: &[u8],
    offset: u32,
    wanted: u32,
    cursor: &mut u32,
) -> StepAnswer
    ensures { (result, cursor.new) ≡ step_numbers (expect_at text.now offset wanted (place cursor.old)) }
{
    witbox::witbox_expect(text, offset, wanted, cursor)
}

#[unsafe(no_mangle)]
pub extern "C" fn witbox_list_raw(text: &[u8], offset: u32, table: &mut [u32]) -> CountAnswer
    ensures { (result, table.new) ≡ count_numbers (listed Raw text.now offset table.old) }
{
    witbox::witbox_list_raw(text, offset, table)
}

#[unsafe(no_mangle)]
pub extern "C" fn witbox_list(text: &[u8], offset: u32, table: &mut [u32]) -> CountAnswer
    ensures { (result, table.new) ≡ count_numbers (listed Filtered text.now offset table.old) }
{
    witbox::witbox_list(text, offset, table)
}

#[unsafe(no_mangle)]
pub extern "C" fn witbox_string_literal(
    text: &[u8],
    offset: u32,
    start: u32,
    end: u32,
    buffer: &mut [u8],
) -> CountAnswer
    ensures { (result, buffer.new) ≡ count_numbers (decoded text.now offset (span start end) buffer.old) }
{
    witbox::witbox_string_literal(text, offset, start, end, buffer)
}

#[unsafe(no_mangle)]
pub extern "C" fn witbox_parse_id(text: &[u8], offset: u32, start: u32, end: u32) -> NameAnswer
    ensures { result ≡ name_numbers (plain_id text.now offset (span start end)) }
{
    witbox::witbox_parse_id(text, offset, start, end)
}

#[unsafe(no_mangle)]
pub extern "C" fn witbox_parse_explicit_id(
    text: &[u8],
    offset: u32,
    start: u32,
    end: u32,
) -> NameAnswer
    ensures { result ≡ name_numbers (explicit_id text.now offset (span start end)) }
{
    witbox::witbox_parse_explicit_id(text, offset, start, end)
}

#[unsafe(no_mangle)]
pub extern "C" fn witbox_toposort(sheet: &[u32], names: &[u8], order: &mut [u32]) -> SortAnswer
    ensures { (result, order.new) ≡ sort_numbers (sorted sheet.now names.now order.old) }
{
    witbox::witbox_toposort(sheet, names, order)
}

#[unsafe(no_mangle)]
pub extern "C" fn witbox_check_order(sheet: &[u32], names: &[u8], list: &[u32]) -> VerdictAnswer
    ensures { result ≡ verdict_numbers (checked_order sheet.now names.now list.now) }
{
    witbox::witbox_check_order(sheet, names, list)
}

#[unsafe(no_mangle)]
pub extern "C" fn witbox_propose(sheet: &[u32], names: &[u8], list: &mut [u32]) -> SortAnswer
    ensures { (result, list.new) ≡ sort_numbers (proposed sheet.now names.now list.old) }
{
    witbox::witbox_propose(sheet, names, list)
}
