//! The choices of a seed. They are decided by a published generator (PCG XSH RR 64/32, O'Neill) and not by the machine that
//! it runs on, so that a seed gives the same run everywhere.

ghost use Rattle.std.specs.Prelude.{◌≡◌, ◌*◌, ◌%◌, ◌<◌, ◌++◌, IfOk, OnOk, IsTrue};
ghost use Rattle.std.specs.Int.{IsPowerOfTwo};
ghost use Rattle.scheduler.specs.Seeds.{choice_of_word, seeded_choices};

use crate::coming::{Choices, Seeded};
use std::alloc::Global;
use tso_terms::{Choice, Core, NoMemory};

/// The choice that a word of the generator says in a test with so many cores: modulo twice the cores, it is twice the
/// core, and 1 more for a drain.
pub fn choice_of_word(cores: u8, word: u32) -> Choice
    requires { 0 < cores }
    ensures { result ≡ choice_of_word cores word }
{
    let pick = pick_of(cores, word);
    let core = Core((pick / 2) as u8);
    if pick % 2 == 0 {
        Choice::Step(core)
    } else {
        Choice::Drain(core)
    }
}

/// The word modulo twice the cores. A division is a good part of what a choice costs, so none is made where that
/// divisor is a power of two.
fn pick_of(cores: u8, word: u32) -> u32
    requires { 0 < cores }
    ensures { result ≡ word % (2 * cores) }
{
    let choices = 2 * u32::from(cores);
    if is_power_of_two(cores) {
        word & (choices - 1)
    } else {
        word % choices
    }
}

/// Whether so many cores are a power of two that a test may have.
fn is_power_of_two(cores: u8) -> bool
    ensures { IsTrue result → IsPowerOfTwo (2 * cores) }
{
    match cores {
        1 => true,
        2 => true,
        4 => true,
        8 => true,
        _ => false,
    }
}

/// Appends the first `count` choices of a seed. Errors: out of memory only; the list has some of them then.
// It is a part of its caller: as a call it has a text of many seeds execute a tenth more.
#[inline(always)]
pub fn push_seeded(
    choices: &mut Vec<Choice>,
    cores: u8,
    seed: u64,
    count: usize,
) -> Result<(), NoMemory>
    requires { 0 < cores }
    ensures { OnOk result (choices.new.items ≡ choices.old.items ++ seeded_choices cores seed count) }
{
    // A generator costs as much as many choices, so none is made for no choice.
    if count == 0 {
        return Ok(());
    }
    let mut drawn = Seeded::new(cores, seed, count);
    while let Some(choice) = drawn.next() {
        choices.push(choice)?;
    }
    Ok(())
}

/// The first `count` choices of a seed in a test with so many cores: `seed N M` in a choice text.
///
/// They are made of the words of PCG XSH RR 64/32 (O'Neill), seeded by `rand_core`'s `seed_from_u64`.
///
/// Errors: out of memory only.
pub fn seeded_choices(
    alloc: Global,
    cores: u8,
    seed: u64,
    count: usize,
) -> Result<Vec<Choice>, NoMemory>
    requires { 0 < cores }
    ensures { IfOk result (λ v. v.items ≡ seeded_choices cores seed count) }
{
    let mut choices = Vec::new(alloc);
    push_seeded(&mut choices, cores, seed, count)?;
    Ok(choices)
}
