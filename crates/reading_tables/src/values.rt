//! What a number can be: one of some values, or any one.
ghost use Rattle.std.specs.Prelude.{◌≡◌, [], ◌∷◌, IfOk, Some, map};
ghost use Rattle.tso_terms.specs.Thread.{combined, difference_of};
ghost use Rattle.possible_reads.specs.Possible as spec;
ghost use Rattle.reading_tables.specs.inner.Told.{known_of};

use std::alloc::Global;
use tso_terms::{NoMemory, Operator};

/// How many values are told at most. More are told as any value.
pub const MOST: usize = 64;

/// Whether this is one of the values.
pub fn is_among(values: &[u32], value: u32) -> bool
    ensures { result ≡ spec.is_among values.now value }
{
    for v in values {
        if *v == value {
            return true;
        }
    }
    false
}

/// Whether a number can be this one, or another one than this.
pub fn can_be_number(values: &Option<Vec<u32>>, truth: bool, value: u32) -> bool
    ensures { result ≡ spec.can_be (known_of values.now) (spec.same_number truth value) }
{
    let Some(values) = values else {
        return true;
    };
    some_number(values, truth, value)
}

fn some_number(values: &[u32], truth: bool, value: u32) -> bool
    ensures { result ≡ spec.can_be (Some values.now) (spec.same_number truth value) }
{
    for v in values {
        if (*v == value) == truth {
            return true;
        }
    }
    false
}

/// The same values once more.
///
/// Errors: out of memory only.
pub fn copy(alloc: Global, values: &Option<Vec<u32>>) -> Result<Option<Vec<u32>>, NoMemory>
    ensures { IfOk result (λ v. known_of v ≡ known_of values.now) }
{
    match values {
        None => Ok(None),
        Some(values) => Ok(Some(Vec::from_slice(alloc, values)?)),
    }
}

/// One value.
///
/// Errors: out of memory only.
pub fn one(alloc: Global, value: u32) -> Result<Option<Vec<u32>>, NoMemory>
    ensures { IfOk result (λ v. known_of v ≡ Some (value ∷ [])) }
{
    let mut values = Vec::new(alloc);
    values.push(value)?;
    Ok(Some(values))
}

/// These values; more than 64 are told as any value.
fn at_most_64(values: Vec<u32>) -> Option<Vec<u32>>
    ensures { known_of result ≡ spec.at_most_64 values.items }
{
    if values.len() > MOST {
        None
    } else {
        Some(values)
    }
}

/// The values of both lists, each once.
fn union(us: &[u32], vs: Vec<u32>) -> Result<Vec<u32>, NoMemory>
    ensures { IfOk result (λ all. all.items ≡ spec.union us.now vs.items) }
{
    let mut all = vs;
    let mut left = us.len();
    while left > 0 {
        left -= 1;
        let value = us[left];
        if !is_among(&all, value) {
            all.insert(0, value)?;
        }
    }
    Ok(all)
}

/// One of these, or one of those.
///
/// Errors: out of memory only.
pub fn either_of(us: &Option<Vec<u32>>, vs: Option<Vec<u32>>) -> Result<Option<Vec<u32>>, NoMemory>
    ensures { IfOk result (λ v. known_of v ≡ spec.either_of (known_of us.now) (known_of vs)) }
{
    let Some(us) = us else {
        return Ok(None);
    };
    let Some(vs) = vs else {
        return Ok(None);
    };
    Ok(at_most_64(union(us, vs)?))
}

/// These values, and this one before them if it isn't among them.
fn with_value(values: Vec<u32>, value: u32) -> Result<Vec<u32>, NoMemory>
    ensures { IfOk result (λ all. all.items ≡ spec.union (value ∷ []) values.items) }
{
    let mut all = values;
    if is_among(&all, value) {
        return Ok(all);
    }
    all.insert(0, value)?;
    Ok(all)
}

/// This value, or one of those.
fn or_value(values: Option<Vec<u32>>, value: u32) -> Result<Option<Vec<u32>>, NoMemory>
    ensures { IfOk result (λ v. known_of v ≡ spec.either_of (Some (value ∷ [])) (known_of values)) }
{
    match values {
        None => Ok(None),
        Some(values) => Ok(at_most_64(with_value(values, value)?)),
    }
}

/// One of these values.
///
/// Errors: out of memory only.
pub fn one_of(alloc: Global, values: &[u32]) -> Result<Option<Vec<u32>>, NoMemory>
    ensures { IfOk result (λ v. known_of v ≡ spec.any_of (map (λ n. Some (n ∷ [])) values.now)) }
{
    let mut all = Some(Vec::new(alloc));
    let mut left = values.len();
    while left > 0 {
        left -= 1;
        all = or_value(all, values[left])?;
    }
    Ok(all)
}

/// Those of these values that are among those.
fn common(alloc: Global, us: &[u32], vs: &[u32]) -> Result<Vec<u32>, NoMemory>
    ensures { IfOk result (λ all. Some all.items ≡ spec.both_of (Some us.now) (Some vs.now)) }
{
    let mut all = Vec::new(alloc);
    for u in us {
        if is_among(vs, *u) {
            all.push(*u)?;
        }
    }
    Ok(all)
}

/// One of these that is one of those.
///
/// Errors: out of memory only.
pub fn both_of(
    alloc: Global,
    us: &Option<Vec<u32>>,
    vs: &Option<Vec<u32>>,
) -> Result<Option<Vec<u32>>, NoMemory>
    ensures { IfOk result (λ v. known_of v ≡ spec.both_of (known_of us.now) (known_of vs.now)) }
{
    match (us, vs) {
        (None, vs) => copy(alloc, vs),
        (us, None) => copy(alloc, us),
        (Some(us), Some(vs)) => Ok(Some(common(alloc, us, vs)?)),
    }
}

/// What an operator makes of this number and each of these values.
fn combined_with(
    alloc: Global,
    operator: Operator,
    number: u32,
    values: &[u32],
) -> Result<Vec<u32>, NoMemory>
    ensures { IfOk result (λ all. all.items ≡ map (combined operator number) values.now) }
{
    let mut all = Vec::new(alloc);
    for v in values {
        all.push(operator.apply(number, *v))?;
    }
    Ok(all)
}

/// What an operator makes of one of these and one of those.
fn all_combined(
    alloc: Global,
    operator: Operator,
    us: &[u32],
    vs: &[u32],
) -> Result<Option<Vec<u32>>, NoMemory>
    ensures { IfOk result (λ v. known_of v ≡ spec.combined_values operator (Some us.now) (Some vs.now)) }
{
    let mut all = Some(Vec::new(alloc));
    let mut left = us.len();
    while left > 0 {
        left -= 1;
        let made = at_most_64(combined_with(alloc, operator, us[left], vs)?);
        all = either_of(&made, all)?;
    }
    Ok(all)
}

/// What an operator makes of two numbers that can be these.
///
/// Errors: out of memory only.
pub fn combined_values(
    alloc: Global,
    operator: Operator,
    us: &Option<Vec<u32>>,
    vs: &Option<Vec<u32>>,
) -> Result<Option<Vec<u32>>, NoMemory>
    ensures { IfOk result (λ v. known_of v ≡ spec.combined_values operator (known_of us.now) (known_of vs.now)) }
{
    let Some(us) = us else {
        return Ok(None);
    };
    let Some(vs) = vs else {
        return Ok(None);
    };
    all_combined(alloc, operator, us, vs)
}

fn all_negated(alloc: Global, values: &[u32]) -> Result<Vec<u32>, NoMemory>
    ensures { IfOk result (λ all. all.items ≡ map (difference_of 0) values.now) }
{
    let mut all = Vec::new(alloc);
    for v in values {
        all.push(0_u32.wrapping_sub(*v))?;
    }
    Ok(all)
}

/// Zero without a number that can be these, modulo 2^32.
///
/// Errors: out of memory only.
pub fn negated_values(
    alloc: Global,
    values: &Option<Vec<u32>>,
) -> Result<Option<Vec<u32>>, NoMemory>
    ensures { IfOk result (λ v. known_of v ≡ spec.negated_values (known_of values.now)) }
{
    match values {
        None => Ok(None),
        Some(values) => Ok(Some(all_negated(alloc, values)?)),
    }
}

/// These values where the test is met, else none of them.
fn only_where(
    alloc: Global,
    test: bool,
    values: &Option<Vec<u32>>,
) -> Result<Option<Vec<u32>>, NoMemory>
    ensures { IfOk result (λ v. known_of v ≡ spec.only_where test (known_of values.now)) }
{
    if test {
        copy(alloc, values)
    } else {
        Ok(Some(Vec::new(alloc)))
    }
}

/// What a compare and exchange makes of this word.
fn exchanged_word(
    alloc: Global,
    eax: &Option<Vec<u32>>,
    new: &Option<Vec<u32>>,
    word: u32,
) -> Result<Option<Vec<u32>>, NoMemory>
    ensures { IfOk result (λ v. known_of v ≡ spec.exchanged_word (known_of eax.now) (known_of new.now) word) }
{
    let itself = one(alloc, word)?;
    let equal = only_where(alloc, can_be_number(eax, true, word), new)?;
    let other = only_where(alloc, can_be_number(eax, false, word), &itself)?;
    either_of(&equal, other)
}

fn all_exchanged(
    alloc: Global,
    words: &[u32],
    eax: &Option<Vec<u32>>,
    new: &Option<Vec<u32>>,
) -> Result<Option<Vec<u32>>, NoMemory>
    ensures { IfOk result (λ v. known_of v ≡ spec.exchanged_values (Some words.now) (known_of eax.now) (known_of new.now)) }
{
    let mut all = Some(Vec::new(alloc));
    let mut left = words.len();
    while left > 0 {
        left -= 1;
        let made = exchanged_word(alloc, eax, new, words[left])?;
        all = either_of(&made, all)?;
    }
    Ok(all)
}

/// What a compare and exchange makes of a word, where the word, EAX and the new value can be these.
///
/// Errors: out of memory only.
pub fn exchanged_values(
    alloc: Global,
    words: &Option<Vec<u32>>,
    eax: &Option<Vec<u32>>,
    new: &Option<Vec<u32>>,
) -> Result<Option<Vec<u32>>, NoMemory>
    ensures { IfOk result (λ v. known_of v ≡ spec.exchanged_values (known_of words.now) (known_of eax.now) (known_of new.now)) }
{
    let Some(words) = words else {
        return Ok(None);
    };
    all_exchanged(alloc, words, eax, new)
}
