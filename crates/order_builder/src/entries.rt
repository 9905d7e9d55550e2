//! The lines of an order text, one by one, each an entry or a fault. A line that is nearly an entry is refused, never
//! mended.

ghost use Rattle.std.specs.Prelude.{◌≡◌, ◌<◌, length, IfSome, ◌^◌, ◌-◌};
ghost use Rattle.std.specs.Option.{option_map};
ghost use Rattle.order_builder.specs.inner.Reading.{kind_of, location_named, place_in, access_in, action_in, entry_in, end_in};

use crate::lines::{split_once, without_prefix};
use crate::numbers::{is_number, number_within};
use tso_terms::{Core, Entry, Kind, Loc, Test};

/// The entry of a test that a line is, if it is one. Its core and its place needn't be the test's.
#[tactic(auto, unfolding(crate::specs::inner::Reading::entry_in))]
pub fn entry_in(test: &Test, line: &[u8]) -> Option<Entry>
    ensures { result ≡ entry_in test.now line.now }
{
    if let Some((head, action)) = split_once(line, b' ')
        && let Some((core, place)) = place_in(head)
    {
        return action_in(test, core, place, action);
    }
    None
}

/// The digits of a line that is `Endorder` and a number of any size.
#[tactic(auto, unfolding(crate::specs::inner::Reading::end_in))]
pub fn end_in(line: &[u8]) -> Option<&[u8]>
    ensures { option_map (λ digits. digits.now) result ≡ end_in line.now }
{
    match without_prefix(line, b"Endorder ") {
        Some(digits) if is_number(digits) => Some(digits),
        _ => None,
    }
}

#[tactic(auto, unfolding(crate::specs::inner::Reading::place_in))]
fn place_in(text: &[u8]) -> Option<(u8, u8)>
    ensures { result ≡ place_in text.now }
{
    if let Some(numbers) = without_prefix(text, b"P")
        && let Some((core, place)) = split_once(numbers, b':')
        && let Some(core) = number_within(core, u32::from(u8::MAX))
        && let Some(place) = number_within(place, u32::from(u8::MAX))
    {
        return Some((core as u8, place as u8));
    }
    None
}

#[tactic(auto, unfolding(crate::specs::inner::Reading::action_in))]
fn action_in(test: &Test, core: u8, place: u8, text: &[u8]) -> Option<Entry>
    ensures { result ≡ action_in test.now (core, place) text.now }
{
    if let [b'F'] = text {
        return Some(Entry {
            core: Core(core),
            place,
            kind: Kind::F,
            loc: Loc(0),
            value: 0,
        });
    }
    if let Some((letters, access)) = split_once(text, b' ')
        && let Some(kind) = kind_of(letters)
        && let Some((loc, value)) = access_in(test, access)
    {
        return Some(Entry {
            core: Core(core),
            place,
            kind,
            loc: Loc(loc),
            value,
        });
    }
    None
}

#[tactic(auto, unfolding(crate::specs::inner::Reading::kind_of))]
fn kind_of(letters: &[u8]) -> Option<Kind>
    ensures { result ≡ kind_of letters.now }
{
    match letters {
        [b'R'] => Some(Kind::R),
        [b'W'] => Some(Kind::W),
        [b'L', b'R'] => Some(Kind::LR),
        [b'L', b'W'] => Some(Kind::LW),
        _ => None,
    }
}

#[tactic(auto, unfolding(crate::specs::inner::Reading::access_in))]
fn access_in(test: &Test, text: &[u8]) -> Option<(u8, u32)>
    ensures { result ≡ access_in test.now text.now }
{
    if let Some((name, value)) = split_once(text, b'=')
        && let Some(loc) = location_named(test, name)
        && let Some(value) = number_within(value, u32::MAX)
    {
        return Some((loc, value));
    }
    None
}

#[tactic(auto, unfolding(crate::specs::inner::Reading::location_named))]
fn location_named(test: &Test, name: &[u8]) -> Option<u8>
    ensures { result ≡ location_named test.now name.now }
{
    for loc in 0..test.locations() {
        if test.location_name(Loc(loc)).as_bytes() == name {
            return Some(loc);
        }
    }
    None
}
