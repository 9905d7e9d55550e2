//! What a JSON object has under its keys.

ghost use Rattle.std.specs.Prelude.{◌≡◌, ◌++◌, ◌∷◌, [], IfOk, OnOk, map};
ghost use Rattle.serde_json.specs.Data.{Data, array, no_members, object, put as with_member, string};
ghost use Rattle.serde_json.specs.View.{items_of, members_view, view};
ghost use Rattle.tso_report.specs.Json.{count};
ghost use Rattle.tso_report.specs.inner.Members.{datum_value, with_data};

use crate::arrays::Array;
use crate::objects::Object;
use serde_json::{Map, Value, put};
use std::alloc::Global;
use tso_terms::NoMemory;

/// What is under a key.
#[derive(Clone, Copy)]
pub enum Datum<'a> {
    /// A string.
    Text(&'a str),
    /// A number.
    Number(u64),
    /// A truth.
    Truth(bool),
}

/// An object with what is under each of these keys.
///
/// Errors: out of memory only.
pub fn object_of(alloc: Global, fields: &[(&str, Datum<'_>)]) -> Result<Value, NoMemory>
    ensures { IfOk result (λ value. view value ≡ object (with_data fields.now no_members)) }
{
    let mut object = Object::new(alloc);
    for (key, datum) in fields {
        object = object.member(key, datum_value(alloc, *datum));
    }
    object.value()
}

fn datum_value(alloc: Global, datum: Datum<'_>) -> Result<Value, NoMemory>
    ensures { IfOk result (λ value. view value ≡ datum_value datum.entry) }
{
    match datum {
        Datum::Text(characters) => word_value(alloc, characters),
        Datum::Number(number) => Ok(Value::from(number)),
        Datum::Truth(truth) => Ok(Value::Bool(truth)),
    }
}

/// A word.
///
/// Errors: out of memory only.
pub fn word_value(alloc: Global, word: &str) -> Result<Value, NoMemory>
    ensures { IfOk result (λ value. view value ≡ string word.now) }
{
    Ok(Value::try_from_str(alloc, word)?)
}

/// Adds a value to a list, if it could be made. So one who makes several has a single end for each, at which nothing is let go.
///
/// Errors: out of memory only, here or where the value was to be made.
pub fn push_made(values: &mut Vec<Value>, made: Result<Value, NoMemory>) -> Result<(), NoMemory>
    ensures { (d : Data) → IfOk made (λ value. view value ≡ d) → OnOk result (map view values.new.items ≡ map view values.old.items ++ d ∷ []) }
{
    values.push(made?)?;
    Ok(())
}

/// Puts a value under a key, if it could be made.
///
/// Errors: out of memory only, here or where the value was to be made.
pub fn put_made(
    members: &mut Map<String, Value>,
    alloc: Global,
    key: &str,
    made: Result<Value, NoMemory>,
) -> Result<(), NoMemory>
    ensures { (d : Data)
        → IfOk made (λ value. view value ≡ d)
        → OnOk result (members_view members.new.entries ≡ with_member key.now d (members_view members.old.entries)) }
{
    put(members, alloc, key, made?)?;
    Ok(())
}

/// A list of numbers.
///
/// Errors: out of memory only.
pub fn numbers_value(alloc: Global, numbers: &[u32]) -> Result<Value, NoMemory>
    ensures { IfOk result (λ value. view value ≡ array (items_of (map count numbers.now))) }
{
    let mut values = Array::new(alloc);
    for number in numbers {
        values = values.with(Ok(Value::from(*number)));
    }
    values.value()
}
