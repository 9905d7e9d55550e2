//! A JSON array in the making, to which items are added one after the other. That memory was refused for one of them is told once,
//! with the array: so one who adds several has a single end.

ghost use Rattle.std.specs.Prelude.{◌≡◌, ◌++◌, ◌∷◌, List, [], IfOk, map};
ghost use Rattle.serde_json.specs.Data.{Data, array};
ghost use Rattle.serde_json.specs.View.{items_of, view};
ghost use Rattle.tso_report.specs.inner.Arrays.{IsBegun};

use crate::members::push_made;
use serde_json::Value;
use std::alloc::Global;
use tso_terms::NoMemory;

/// A JSON array in the making.
#[derive(Drop)]
pub struct Array {
    /// The items so far, unless memory was refused for one of them.
    items: Result<Vec<Value>, NoMemory>,
}

impl Array {
    /// An array with no items yet.
    pub fn new(alloc: Global) -> Self
        ensures { (all : List Data) → IsBegun result all all }
    {
        Array {
            items: Ok(Vec::new(alloc)),
        }
    }

    /// The array with one item more, if it could be made.
    pub fn with(self, made: Result<Value, NoMemory>) -> Self
        ensures { (d : Data) (rest all : List Data) → IsBegun self (d ∷ rest) all → IfOk made (λ value. view value ≡ d) → IsBegun result rest all }
    {
        Array {
            items: with_item(self.items, made),
        }
    }

    /// The array.
    ///
    /// Errors: out of memory only, here or where one of the items was to be made.
    pub fn value(self) -> Result<Value, NoMemory>
        ensures { (all : List Data) → IsBegun self [] all → IfOk result (λ value. view value ≡ array (items_of all)) }
    {
        Ok(Value::Array(self.items?))
    }
}

/// These items and one more, if all could be made.
fn with_item(
    items: Result<Vec<Value>, NoMemory>,
    made: Result<Value, NoMemory>,
) -> Result<Vec<Value>, NoMemory>
    ensures { (d : Data) (rest all : List Data) → IfOk items (λ vs. map view vs.items ++ d ∷ rest ≡ all) → IfOk made (λ value. view value ≡ d)
        → IfOk result (λ vs. map view vs.items ++ rest ≡ all) }
{
    let mut items = items?;
    push_made(&mut items, made)?;
    Ok(items)
}
