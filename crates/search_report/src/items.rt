//! Lists of what a report shows, item by item: in a line of text, or as a JSON array.

ghost use Rattle.std.specs.Prelude.{ℕ, ◌≡◌, ◌++◌, List, IfOk, OnOk, map, string_bytes};
ghost use Rattle.std.specs.List.{flat_map};
ghost use Rattle.serde_json.specs.Data.{Data, array};
ghost use Rattle.serde_json.specs.View.{items_of, view};
ghost use Rattle.tso_terms.specs.Litmus.{Litmus};
ghost use Rattle.search_report.specs.inner.Views.{separated};

use serde_json::Value;
use std::alloc::Global;
use tso_report::arrays::Array;
use tso_report::pieces::write_characters;
use tso_terms::{NoMemory, Test};

/// An item of a list in lines of text.
pub trait Written {
    ghost written: { Litmus → Self → List ℕ };

    /// Adds it.
    ///
    /// Errors: out of memory only; the text may have grown then.
    fn write(&self, text: &mut String, test: &Test) -> Result<(), NoMemory>
        ensures { OnOk result (string_bytes text.new ≡ string_bytes text.old ++ written test.now self.now) };
}

/// An item of a JSON array.
pub trait Valued {
    ghost valued: { Litmus → Self → Data };

    /// Its value.
    ///
    /// Errors: out of memory only.
    fn value(&self, alloc: Global, test: &Test) -> Result<Value, NoMemory>
        ensures { IfOk result (λ value. view value ≡ valued test.now self.now) };
}

/// Adds items, each after these characters.
///
/// Errors: out of memory only; the text may have grown then.
pub fn write_each<T: Written>(
    text: &mut String,
    test: &Test,
    before: &str,
    items: &[T],
) -> Result<(), NoMemory>
    ensures { OnOk result (string_bytes text.new ≡ string_bytes text.old ++ flat_map (λ item. before.now ++ T.written test.now item) items.now) }
{
    for item in items {
        write_characters(text, before)?;
        item.write(text, test)?;
    }
    Ok(())
}

/// Adds items, with these characters between them.
///
/// Errors: out of memory only; the text may have grown then.
pub fn write_separated<T: Written>(
    text: &mut String,
    test: &Test,
    separator: &str,
    items: &[T],
) -> Result<(), NoMemory>
    ensures { OnOk result (string_bytes text.new ≡ string_bytes text.old ++ separated separator.now (T.written test.now) items.now) }
{
    let Some((first, rest)) = items.split_first() else {
        return Ok(());
    };
    first.write(text, test)?;
    write_each(text, test, separator, rest)
}

/// The array of the items' values.
///
/// Errors: out of memory only.
pub fn array_of<T: Valued>(alloc: Global, test: &Test, items: &[T]) -> Result<Value, NoMemory>
    ensures { IfOk result (λ value. view value ≡ array (items_of (map (T.valued test.now) items.now))) }
{
    let mut values = Array::new(alloc);
    for item in items {
        values = values.with(item.value(alloc, test));
    }
    values.value()
}
