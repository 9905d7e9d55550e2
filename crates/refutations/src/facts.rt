//! What the answers of a branch tell of values, kept for the questions on it: the writes whose values are known, and each core's
//! registers at the end.
ghost use Rattle.std.specs.Prelude.{ℕ, ◌≡◌, ◌<◌, [], IfOk, length, slice_index_or, true};
ghost use Rattle.refutation_laws.specs.Known.{events_of};
ghost use Rattle.refutation_laws.specs.Values as spec;
ghost use Rattle.refutation_laws.specs.Shown as shown;
ghost use Rattle.refutations.specs.inner.Trees.{known_of};
ghost use Rattle.refutations.specs.inner.Facts.{AreFacts};

use crate::answers::Answers;
use crate::events::is_read;
use crate::values::{Reads, Walk, known_first_registers, returned, run_program, value_among};
use refutation_laws::Source;
use std::alloc::Global;
use tso_terms::{Core, Entry, NoMemory, Test};

/// What is known of values.
#[derive(Drop)]
pub struct Facts {
    pub writes: Vec<Entry>,
    pub registers: Vec<[Option<u32>; 6]>,
}

/// What the answers tell of values: the rounds end where one knows no more than the one before.
///
/// Errors: out of memory only.
pub fn known_facts(
    alloc: Global,
    test: &Test,
    events: &[Entry],
    answers: &Answers,
) -> Result<Facts, NoMemory>
    requires { events.now ≡ events_of test.now }
    ensures { IfOk result (AreFacts test.now (known_of answers.now)) }
{
    let mut writes = Vec::new(alloc);
    for _round in 0..events.len() {
        let facts = run_all(alloc, test, &writes, &answers.sources)?;
        if facts.writes == writes {
            return Ok(facts);
        }
        writes = facts.writes;
    }
    let facts = run_all(alloc, test, &writes, &answers.sources)?;
    Ok(Facts {
        writes,
        registers: facts.registers,
    })
}

/// Runs all programs, where these writes are known before: the writes that are then, and all registers at the end, as far as they are
/// known.
fn run_all(
    alloc: Global,
    test: &Test,
    before: &[Entry],
    sources: &[Source],
) -> Result<Facts, NoMemory>
    ensures writes { IfOk result (λ f. f.writes.items
        ≡ spec.writes_from (spec.returned test.now before.now sources.now) 0 test.now.programs test.now.registers) }
    ensures count { IfOk result (λ f. length f.registers.items ≡ length test.now.programs) }
    ensures each { IfOk result (λ f. (core : ℕ) → core < length test.now.programs → slice_index_or f.registers.items core []
        ≡ spec.left_of (spec.returned test.now before.now sources.now) core 0 (slice_index_or test.now.programs core [])
        (spec.known_first_registers test.now.registers core)) }
{
    let reads = Reads {
        test,
        writes: before,
        sources,
    };
    let mut writes = Vec::new(alloc);
    let mut registers = Vec::new(alloc);
    for number in 0..test.cores() {
        let core = Core(number);
        let mut walk = Walk {
            writes,
            registers: known_first_registers(test, core),
        };
        run_program(&mut walk, reads, core)?;
        registers.push(walk.registers)?;
        writes = walk.writes;
    }
    Ok(Facts { writes, registers })
}

/// What is known of the value of an event. A fence has none.
pub fn value_known(
    test: &Test,
    events: &[Entry],
    answers: &Answers,
    facts: &Facts,
    e: &Entry,
) -> Option<u32>
    requires events { events.now ≡ events_of test.now }
    requires facts { AreFacts test.now (known_of answers.now) facts.now }
    ensures { result ≡ shown.value_known test.now (known_of answers.now) e.now }
{
    if is_read(e) {
        returned(test, &facts.writes, &answers.sources, e)
    } else {
        value_among(&facts.writes, e)
    }
}
