//! Amounts: numbers that writes set, or that locked additions add; and the least that is written where these never wrap.
ghost use Rattle.std.specs.Prelude.{◌≡◌, ◌+◌, List, IfOk, Some, None, if◌then◌else◌, map};
ghost use Rattle.tso_terms.specs.Litmus.{Litmus};
ghost use Rattle.tso_terms.specs.ProgramOrder.{same_kind};
ghost use Rattle.basic_laws.specs.Types.{LW};
ghost use Rattle.refutation_laws.specs.Known.{events_of};
ghost use Rattle.possible_reads.specs.Expressions as expressions;
ghost use Rattle.possible_reads.specs.Possible as spec;
ghost use Rattle.reading_tables.specs.inner.Told.{held_of, all_made, written_of, AreExpressions};
ghost use Rattle.reading_tables.specs.inner.Addends.{addend_by, made_addend};
ghost use Rattle.reading_tables.specs.inner.Bounds.{AreBounds, NeverWrapWhere, least_upon};

use crate::expressions::{Expressions, Held, Making, Written};
use refutations::events::{same_event, writes_to};
use refutations::values::first_word;
use std::alloc::Global;
use tso_terms::{Entry, Kind, Loc, NoMemory, Operator, Test};

/// The least that a write writes: a number, on top of the least that its load part returns, if it adds to that.
#[derive(Clone, Copy)]
pub struct Bound {
    pub read: Option<Entry>,
    pub number: u32,
}

/// What this write writes; 0 where there is no such write.
pub fn value_among(written: &[Written], write: &Entry) -> Held
    ensures { (made : List expressions.Expression) → held_of made result ≡ expressions.expression_among (map (written_of made) written.now) write.now }
{
    for x in written {
        if same_event(&x.write, write) {
            return x.value;
        }
    }
    Held::Number(0)
}

/// The load part of the locked instruction whose store part this is.
pub fn load_part_of(write: &Entry) -> Entry
    ensures { result ≡ spec.load_part_of write.now }
{
    Entry {
        core: write.core,
        place: write.place,
        kind: Kind::LR,
        loc: write.loc,
        value: 0,
    }
}

/// What an operator with this number adds, modulo 2^32, if it adds.
fn added_by(operator: Operator, number: u32) -> Option<u32>
    ensures { result ≡ addend_by operator number }
{
    match operator {
        Operator::Add => Some(number),
        Operator::Subtract => Some(0_u32.wrapping_sub(number)),
        Operator::And | Operator::Or | Operator::Xor => None,
    }
}

/// The number that this making adds to what the read returns, if it is one.
fn addend_made(own: &Entry, making: Making) -> Option<u32>
    ensures { result ≡ made_addend own.now making }
{
    match making {
        Making::Combined(operator, Held::Returned(read), Held::Number(number)) => {
            if same_event(&read, own) {
                added_by(operator, number)
            } else {
                None
            }
        }
        _ => None,
    }
}

/// The number that is added to what the read returns, if it is one.
pub fn addend_in(makings: &[Making], own: &Entry, held: Held) -> Option<u32>
    ensures { result ≡ spec.addend_in own.now (held_of (all_made makings.now) held) }
{
    let Held::Made(number) = held else {
        return None;
    };
    match makings.get(number) {
        Some(making) => addend_made(own, *making),
        None => None,
    }
}

/// The number that is added to what the write's load part returns, if it has one.
fn amount_added(makings: &[Making], write: &Entry, held: Held) -> Option<u32>
    ensures { result ≡ if same_kind write.now.kind LW then spec.addend_in (spec.load_part_of write.now) (held_of (all_made makings.now) held) else None }
{
    if write.kind == Kind::LW {
        addend_in(makings, &load_part_of(write), held)
    } else {
        None
    }
}

/// The number that a write sets, or that a locked addition adds.
fn amount_of(made: &Expressions, write: &Entry) -> Option<u32>
    ensures { (t : Litmus) → AreExpressions t made.now → result ≡ spec.amount_of t write.now }
{
    match value_among(&made.written, write) {
        Held::Number(number) => Some(number),
        held => amount_added(&made.makings, write, held),
    }
}

/// The sum with an amount more, where there is one and a word holds both.
fn sum_with(sum: u32, amount: Option<u32>) -> Option<u32>
    ensures { result ≡ if spec.can_add sum amount then Some (sum + spec.addend_or_none amount) else None }
{
    match amount {
        Some(amount) => sum.checked_add(amount),
        None => None,
    }
}

/// Whether all writes to the location set numbers or add them, and a word holds all of these and the first word together.
fn never_wraps(test: &Test, events: &[Entry], made: &Expressions, loc: u8) -> bool
    requires events { events.now ≡ events_of test.now }
    requires made { AreExpressions test.now made.now }
    ensures { result ≡ spec.never_wraps test.now loc }
{
    let mut sum = first_word(test, Loc(loc));
    for w in events {
        if writes_to(loc, w) {
            let Some(more) = sum_with(sum, amount_of(made, w)) else {
                return false;
            };
            sum = more;
        }
    }
    true
}

/// The bound of a write to a location where nothing wraps.
fn bound_of(made: &Expressions, write: &Entry) -> Bound
    ensures { (t : Litmus) (table : List spec.Reading) → AreExpressions t made.now
        → least_upon table result.read result.number ≡ spec.least_by table write.now (expressions.expression_of t write.now) }
{
    let own = load_part_of(write);
    match value_among(&made.written, write) {
        Held::Number(number) => Bound { read: None, number },
        held => Bound {
            read: Some(own),
            number: addend_in(&made.makings, &own, held).unwrap_or(0),
        },
    }
}

/// Of each location, whether nothing wraps there.
fn each_never_wraps(
    alloc: Global,
    test: &Test,
    events: &[Entry],
    made: &Expressions,
) -> Result<Vec<bool>, NoMemory>
    requires events { events.now ≡ events_of test.now }
    requires made { AreExpressions test.now made.now }
    ensures { IfOk result (λ each. NeverWrapWhere test.now each.items) }
{
    let mut each = Vec::new(alloc);
    for loc in 0..test.locations() {
        each.push(never_wraps(test, events, made, loc))?;
    }
    Ok(each)
}

/// Whether nothing wraps at this location, where that was told of each.
fn never_wraps_at(test: &Test, events: &[Entry], made: &Expressions, each: &[bool], loc: u8) -> bool
    requires events { events.now ≡ events_of test.now }
    requires made { AreExpressions test.now made.now }
    requires each { NeverWrapWhere test.now each.now }
    ensures { result ≡ spec.never_wraps test.now loc }
{
    match each.get(usize::from(loc)) {
        Some(never) => *never,
        None => never_wraps(test, events, made, loc),
    }
}

/// The bound of a write; 0 where nothing is known.
fn bound_for(
    test: &Test,
    events: &[Entry],
    made: &Expressions,
    each: &[bool],
    write: &Entry,
) -> Bound
    requires events { events.now ≡ events_of test.now }
    requires made { AreExpressions test.now made.now }
    requires each { NeverWrapWhere test.now each.now }
    ensures { (table : List spec.Reading) → least_upon table result.read result.number ≡ spec.least_written test.now table write.now }
{
    if never_wraps_at(test, events, made, each, write.loc.0) {
        bound_of(made, write)
    } else {
        Bound {
            read: None,
            number: 0,
        }
    }
}

/// The bound of each write.
///
/// Errors: out of memory only.
pub fn make_bounds(
    alloc: Global,
    test: &Test,
    events: &[Entry],
    made: &Expressions,
) -> Result<Vec<Bound>, NoMemory>
    requires events { events.now ≡ events_of test.now }
    requires made { AreExpressions test.now made.now }
    ensures { IfOk result (λ bs. AreBounds test.now made.now.written.items bs.items) }
{
    let each = each_never_wraps(alloc, test, events, made)?;
    let mut bounds = Vec::new(alloc);
    for x in &made.written {
        bounds.push(bound_for(test, events, made, &each, &x.write))?;
    }
    Ok(bounds)
}
