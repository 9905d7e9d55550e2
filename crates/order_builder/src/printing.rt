//! Entries and orders as they are printed.
//!
//! The text of an order is the line `Order`, a line for each entry, and the line `Endorder n`, n
//! being how many entries there are. The line of an entry is `Pc:p K x=v`: its core, its place, its
//! kind, its location and its value; that of a fence is `Pc:p F`. Numbers are decimal and have no
//! leading zeros.

ghost use Rattle.std.specs.Prelude.{◌≡◌, ◌++◌, map, All, IfOk, OnOk, string_bytes};
ghost use Rattle.order_builder.specs.PrintedOrder.{letters_of, printed_entry, printed_lines};
ghost use Rattle.order_builder.specs.PrintedOrder.{printed_order, HasLocation, HasWord};

use std::alloc::Global;
use tso_terms::{Entry, Execution, Kind, NoMemory, Test};

/// An entry as it is printed, as `P0:1 R y=0`, or `P1:2 F` for a fence. But for a fence, its location
/// is one of the test's.
///
/// # Errors
///
/// `NoMemory` where the allocator refused a growth.
pub fn entry_text(alloc: Global, test: &Test, entry: &Entry) -> Result<String, NoMemory>
    requires { HasLocation test.now entry.now }
    ensures { IfOk result (λ text. string_bytes text ≡ printed_entry test.now entry.now) }
{
    let mut text = String::new(alloc);
    write_entry(&mut text, test, entry)?;
    Ok(text)
}

/// The text of an order: the line `Order`, a line for each entry, and the line `Endorder n`, n being
/// how many entries there are. But for fences, the entries' locations are the test's. That the values
/// that were printed are words is told along with it, for those who read the text again.
///
/// # Errors
///
/// `NoMemory` where the allocator refused a growth.
pub fn order_text(alloc: Global, test: &Test, execution: &Execution) -> Result<String, NoMemory>
    requires { All (HasLocation test.now) execution.now.order.items }
    ensures text { IfOk result (λ text. string_bytes text ≡ printed_order test.now execution.now.order.items) }
    ensures words { OnOk result (All HasWord execution.now.order.items) }
{
    let mut text = String::new(alloc);
    write_order(&mut text, test, execution)?;
    Ok(text)
}

/// Writes the text of an order after what a text has already, as [`order_text`] has it.
///
/// Errors: out of memory only; the text may have grown then.
pub fn write_order(text: &mut String, test: &Test, execution: &Execution) -> Result<(), NoMemory>
    requires { All (HasLocation test.now) execution.now.order.items }
    ensures text { OnOk result (string_bytes text.new ≡ string_bytes text.old ++ printed_order test.now execution.now.order.items) }
    ensures words { OnOk result (All HasWord execution.now.order.items) }
{
    let order = execution.order.as_slice();
    text.push_str("Order\n")?;
    write_entries(text, test, order)?;
    let count = order.len();
    writeln!(text, "Endorder {count}")?;
    Ok(())
}

fn write_entries(text: &mut String, test: &Test, order: &[Entry]) -> Result<(), NoMemory>
    requires { All (HasLocation test.now) order.now }
    ensures text { OnOk result (string_bytes text.new ≡ string_bytes text.old ++ printed_lines (map (printed_entry test.now) order.now)) }
    ensures words { OnOk result (All HasWord order.now) }
{
    for entry in order {
        write_entry(text, test, entry)?;
        text.push('\n')?;
    }
    Ok(())
}

/// Writes an entry after what a text has already, as [`entry_text`] has it. That the value that was printed is a word is told along
/// with it.
///
/// Errors: out of memory only; the text may have grown then.
pub fn write_entry(text: &mut String, test: &Test, entry: &Entry) -> Result<(), NoMemory>
    requires { HasLocation test.now entry.now }
    ensures text { OnOk result (string_bytes text.new ≡ string_bytes text.old ++ printed_entry test.now entry.now) }
    ensures word { OnOk result (HasWord entry.now) }
{
    let core = entry.core.0;
    let place = entry.place;
    let letters = letters_of(entry.kind);
    let value = entry.value;
    write!(text, "P{core}:{place} {letters}")?;
    match entry.kind {
        // A fence neither reads nor writes.
        Kind::F => Ok(()),
        Kind::R | Kind::W | Kind::LR | Kind::LW => {
            let name = test.location_name(entry.loc);
            write!(text, " {name}={value}")?;
            Ok(())
        }
    }
}

/// The letters that stand for a kind where an entry is printed.
pub fn letters_of(kind: Kind) -> &'static str
    ensures { result.now ≡ letters_of kind }
{
    match kind {
        Kind::R => "R",
        Kind::W => "W",
        Kind::F => "F",
        Kind::LR => "LR",
        Kind::LW => "LW",
    }
}
