//! An object in the making, to which members are added one after the other. That memory was refused for one of them is told once,
//! with the object: so one who adds several has a single end.

ghost use Rattle.std.specs.Prelude.{◌≡◌, IfOk, false, string_bytes};
ghost use Rattle.serde_json.specs.Data.{Data, Members, no_members, object, put as with_member};
ghost use Rattle.serde_json.specs.View.{members_view, view};
ghost use Rattle.serde_json.specs.Written.{compact_text, has_float};
ghost use Rattle.tso_report.specs.Report.{line};
ghost use Rattle.tso_report.specs.inner.Objects.{HasMembers};

use crate::json::line_of;
use crate::members::put_made;
use serde_json::{Map, Value};
use std::alloc::Global;
use tso_terms::NoMemory;

/// An object in the making.
pub struct Object {
    alloc: Global,
    /// The members so far, unless memory was refused for one of them.
    members: Result<Map<String, Value>, NoMemory>,
}

// Said by hand, so that who lets it go makes one call, and not one for each part.
impl Drop for Object {
    fn drop(self) {
        let Object {
            alloc: _,
            members: _members,
        } = self;
    }
}

impl Object {
    /// An object with no members yet.
    pub fn new(alloc: Global) -> Self
        ensures { HasMembers result no_members }
    {
        Object::from_made(alloc, Ok(Map::new(alloc)))
    }

    /// An object with these members, if they could be made.
    pub fn from_made(alloc: Global, members: Result<Map<String, Value>, NoMemory>) -> Self
        ensures { (ms : Members) → IfOk members (λ m. members_view m.entries ≡ ms) → HasMembers result ms }
    {
        Object { alloc, members }
    }

    /// The object with a value under one key more, if it could be made.
    pub fn member(self, key: &str, made: Result<Value, NoMemory>) -> Self
        ensures { (ms : Members) (d : Data) → HasMembers self ms → IfOk made (λ value. view value ≡ d) → HasMembers result (with_member key.now d ms) }
    {
        let Object { alloc, members } = self;
        Object {
            alloc,
            members: with_made(alloc, members, key, made),
        }
    }

    /// The members.
    ///
    /// Errors: out of memory only, here or where one of the members was to be made.
    pub fn members(self) -> Result<Map<String, Value>, NoMemory>
        ensures { (ms : Members) → HasMembers self ms → IfOk result (λ m. members_view m.entries ≡ ms) }
    {
        let Object { alloc: _, members } = self;
        members
    }

    /// The object.
    ///
    /// Errors: out of memory only, here or where one of the members was to be made.
    pub fn value(self) -> Result<Value, NoMemory>
        ensures { (ms : Members) → HasMembers self ms → IfOk result (λ value. view value ≡ object ms) }
    {
        Ok(Value::Object(self.members()?))
    }

    /// The line of the object: its compact text, and a line feed.
    ///
    /// Errors: out of memory only, here or where one of the members was to be made.
    pub fn line(self) -> Result<String, NoMemory>
        requires { (ms : Members) × HasMembers self ms × (has_float (object ms) ≡ false) }
        ensures { (ms : Members) → HasMembers self ms → IfOk result (λ text. string_bytes text ≡ line (compact_text (object ms))) }
    {
        let alloc = self.alloc;
        let value = self.value()?;
        line_of(alloc, &value)
    }
}

/// These members and one more, if all could be made.
fn with_made(
    alloc: Global,
    members: Result<Map<String, Value>, NoMemory>,
    key: &str,
    made: Result<Value, NoMemory>,
) -> Result<Map<String, Value>, NoMemory>
    ensures { (ms : Members) (d : Data) → IfOk members (λ m. members_view m.entries ≡ ms) → IfOk made (λ value. view value ≡ d)
        → IfOk result (λ m. members_view m.entries ≡ with_member key.now d ms) }
{
    let mut members = members?;
    put_made(&mut members, alloc, key, made)?;
    Ok(members)
}
