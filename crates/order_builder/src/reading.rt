//! Orders read from texts, in the form in which they are printed.
//!
//! A line loses one carriage return at its end, and an empty rest after the last line feed is no
//! line. Lines are counted from 1.

ghost use Rattle.std.specs.Prelude.{◌≡◌, ◌≢◌, ◌+◌, ◌<◌, ◌≤◌, ◌^◌, length, count_by, drop, true, List, Ok, Err, IfSome, IfNone, IfOk, IfErr};
ghost use Rattle.std.specs.Option.{option_map};
ghost use Rattle.order_builder.specs.Lines.{lines_of, is_line_feed};
ghost use Rattle.tso_terms.specs.declared.execution.Entry.{Entry};
ghost use Rattle.order_builder.specs.Spelling.{SpellsOrder, HasFault};
ghost use Rattle.order_builder.specs.declared.fault.OrderFault.{OrderFault};
ghost use Rattle.order_builder.specs.declared.fault.OrderFault.TheVariants.{NoMemory};
ghost use Rattle.order_builder.specs.Reading.{entries_of_order, Gives};
ghost use Rattle.order_builder.specs.inner.Reading.{entries_in, order_start, starts_line, IsOrderLineAt, IsOtherFirst};

use crate::entries::{end_in, entry_in};
use crate::fault::OrderFault;
use crate::lines::{line_feeds_in, next_line, starts_line};
use crate::numbers::number_is;
use memchr::memchr;
use std::alloc::Global;
use tso_terms::{Execution, Test};

/// The order of a test that a text spells. The text before the first line that is `Order`, and after
/// the first line `Endorder n` after it, is not judged. Cores and places needn't be the test's.
///
/// # Errors
///
/// The first fault in the order of the lines, where the text spells no order; `NoMemory` where the
/// allocator refused a growth.
pub fn read_order(alloc: Global, test: &Test, text: &[u8]) -> Result<Execution, OrderFault>
    // What is read is spelled so, and what is spelled so is read, unless memory runs out.
    ensures found { IfOk result (λ execution. SpellsOrder test.now text.now (entries_of_order execution)) }
    ensures only { (order : List Entry) → SpellsOrder test.now text.now order → Gives entries_of_order result (Ok order) }

    // A fault that is answered is the text's, and the text's is answered, unless memory runs out.
    ensures fault { IfErr result (λ fault. fault ≢ NoMemory → HasFault test.now text.now fault) }
    ensures only_fault { (fault : OrderFault) → HasFault test.now text.now fault → Gives entries_of_order result (Err fault) }
{
    // A test keeps its limits, on which the names of its locations rest.
    test.know_limits();
    match around_order_line(text) {
        Some((before, after)) => read_entries(alloc, test, before, after),
        None => Err(OrderFault::NoOrder),
    }
}

/// What comes before the first line that is `Order`, and what after it. A line is made only where an `O` is.
fn around_order_line(text: &[u8]) -> Option<(&[u8], &[u8])>
    ensures value { option_map (λ found. (count_by is_line_feed found.0.now + 1, lines_of found.1.now)) result ≡ order_start 0 (lines_of text.now) }
    ensures within { IfSome result (λ found. length found.0.now + length found.1.now < length text.now) }
{
    let mut at = 0;
    while let Some(others) = memchr(b'O', &text[at..]) {
        at += others;
        if let Some(after) = after_order_at(text, at) {
            return Some((&text[..at], after));
        }
        at += 1;
    }
    None
}

/// What comes after the line that begins here, where it is `Order`; `None` where it is another, or none begins here.
fn after_order_at(text: &[u8], at: usize) -> Option<&[u8]>
    requires { at < length text.now }
    ensures some { IfSome result (λ after. IsOrderLineAt text.now at (lines_of after.now)) }
    ensures shorter { IfSome result (λ after. at + length after.now < length text.now) }
    ensures none { IfNone result (starts_line text.now at ≡ true → IsOtherFirst (lines_of (drop at text.now))) }
{
    if !starts_line(text, at) {
        return None;
    }
    match next_line(&text[at..]) {
        Some((line, after)) if line == b"Order".as_slice() => Some(after),
        _ => None,
    }
}

/// The entries of a text that comes after these bytes and a line `Order`.
fn read_entries(
    alloc: Global,
    test: &Test,
    before: &[u8],
    text: &[u8],
) -> Result<Execution, OrderFault>
    requires { length before.now + length text.now + 1 < 2 ^ 64 }
    ensures { Gives entries_of_order result (entries_in test.now (count_by is_line_feed before.now + 1) 0 (lines_of text.now)) }
{
    let mut order = Vec::new(alloc);
    let mut rest = text;
    while let Some((line, after)) = next_line(rest) {
        if let Some(digits) = end_in(line) {
            if number_is(digits, order.len() as u64) {
                return Ok(Execution { order });
            }
            return Err(OrderFault::BadCount);
        }
        match entry_in(test, line) {
            Some(entry) => order.push(entry)?,
            None => return Err(OrderFault::BadLine(line_feeds_in(before) + order.len() + 2)),
        }
        rest = after;
    }
    Err(OrderFault::BadCount)
}
