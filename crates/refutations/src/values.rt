//! Values that the answers tell: the programs run with registers that are known or not.
ghost use Rattle.std.specs.Prelude.{ℕ, ◌≡◌, ◌<◌, ◌+◌, List, [], ◌∷◌, ◌++◌, IfOk, length, slice_index, slice_index_or};
ghost use Rattle.tso_terms.specs.declared.instruction.Instr.{Instr};
ghost use Rattle.refutation_laws.specs.Values as spec;

use crate::events::same_event;
use refutation_laws::Source;
use tso_terms::{
    Action, Change, Core, Entry, Instr, Kind, Loc, NoMemory, Operand, Operator, Reg, Test, Update,
};

/// A program that is run with what is known: the writes whose values are, and the registers.
#[derive(Drop)]
pub struct Walk {
    pub writes: Vec<Entry>,
    pub registers: [Option<u32>; 6],
}

/// By what reads return values: the test, the writes whose values are known, and the sources that the answers tell.
#[derive(Clone, Copy)]
pub struct Reads<'a> {
    pub test: &'a Test,
    pub writes: &'a [Entry],
    pub sources: &'a [Source],
}

fn known_operand(registers: &[Option<u32>; 6], operand: Operand) -> Option<u32>
    ensures { result ≡ spec.known_operand registers.now operand }
{
    match operand {
        Operand::Number(value) => Some(value),
        Operand::Held(reg) => registers[reg.index()],
    }
}

fn known_combined(operator: Operator, word: Option<u32>, value: Option<u32>) -> Option<u32>
    ensures { result ≡ spec.known_combined operator word value }
{
    match (word, value) {
        (Some(word), Some(value)) => Some(operator.apply(word, value)),
        _ => None,
    }
}

fn known_negated(word: Option<u32>) -> Option<u32>
    ensures { result ≡ spec.known_negated word }
{
    match word {
        Some(word) => Some(0_u32.wrapping_sub(word)),
        None => None,
    }
}

fn known_exchanged(word: Option<u32>, eax: Option<u32>, value: Option<u32>) -> Option<u32>
    ensures { result ≡ spec.known_exchanged word eax value }
{
    match (word, eax) {
        (Some(word), Some(eax)) => { if word == eax { value } else { Some(word) } }
        _ => None,
    }
}

fn known_update(update: Update, registers: &[Option<u32>; 6], word: Option<u32>) -> Option<u32>
    ensures { result ≡ spec.known_update update registers.now word }
{
    match update {
        Update::Replace(operand) => known_operand(registers, operand),
        Update::Combine(operator, operand) => {
            known_combined(operator, word, known_operand(registers, operand))
        }
        Update::Negate => known_negated(word),
        Update::CompareExchange(reg) => {
            known_exchanged(word, registers[Reg::Eax.index()], registers[reg.index()])
        }
    }
}

/// Changes the registers.
fn change_known(registers: &mut [Option<u32>; 6], change: Change)
    ensures { registers.new ≡ spec.known_changed change registers.old }
{
    match change {
        Change::Keep => {}
        Change::Set(reg, update) => {
            let value = known_update(update, registers, registers[reg.index()]);
            registers[reg.index()] = value;
        }
        Change::Swap(reg, other) => {
            let value = registers[reg.index()];
            registers[reg.index()] = registers[other.index()];
            registers[other.index()] = value;
        }
    }
}

/// The register, if there is one, gets the word.
fn take_known(registers: &mut [Option<u32>; 6], target: Option<Reg>, word: Option<u32>)
    ensures { registers.new ≡ spec.known_taken registers.old target word }
{
    if let Some(reg) = target {
        registers[reg.index()] = word;
    }
}

/// The value of a write among those that are known.
pub fn value_among(writes: &[Entry], w: &Entry) -> Option<u32>
    ensures { result ≡ spec.value_among writes.now w.now }
{
    for x in writes {
        if same_event(x, w) {
            return Some(x.value);
        }
    }
    None
}

/// The first word of a location, and 0 where there is no such location.
pub fn first_word(test: &Test, loc: Loc) -> u32
    ensures { result ≡ slice_index test.now.words loc.0 }
{
    match test.initial_words().get(usize::from(loc.0)) {
        Some(word) => *word,
        None => 0,
    }
}

/// What is known of what a read returns, where these writes are known.
pub fn returned(test: &Test, writes: &[Entry], sources: &[Source], r: &Entry) -> Option<u32>
    ensures { result ≡ spec.returned test.now writes.now sources.now r.now }
{
    for s in sources {
        if same_event(&s.read, r) {
            return match &s.write {
                None => Some(first_word(test, r.loc)),
                Some(w) => value_among(writes, w),
            };
        }
    }
    None
}

fn word_given(reads: Reads<'_>, core: Core, place: u8, action: Action) -> Option<u32>
    ensures { result ≡ spec.word_given (spec.returned reads.entry.test.now reads.entry.writes.now reads.entry.sources.now) core.0 place action }
{
    let (kind, loc) = match action {
        Action::Load(_, loc) => (Kind::R, loc),
        Action::Lock(loc, _, _) => (Kind::LR, loc),
        _ => return None,
    };
    let read = Entry {
        core,
        place,
        kind,
        loc,
        value: 0,
    };
    returned(reads.test, reads.writes, reads.sources, &read)
}

/// Notes a core's write, if its value is known.
fn note(
    walk: &mut Walk,
    core: Core,
    place: u8,
    kind: Kind,
    loc: Loc,
    value: Option<u32>,
) -> Result<(), NoMemory>
    ensures writes { IfOk result (λ _. walk.new.writes.items ≡ walk.old.writes.items ++ spec.write_with core.0 place kind loc value) }
    ensures registers { walk.new.registers ≡ walk.old.registers }
{
    if let Some(value) = value {
        walk.writes.push(Entry {
            core,
            place,
            kind,
            loc,
            value,
        })?;
    }
    Ok(())
}

/// Runs one instruction.
fn run_instruction(
    walk: &mut Walk,
    reads: Reads<'_>,
    core: Core,
    place: u8,
    instr: Instr,
) -> Result<(), NoMemory>
    ensures writes { IfOk result (λ _. (rest : List Instr)
        → walk.old.writes.items
        ++ spec.writes_of
        (spec.returned reads.entry.test.now reads.entry.writes.now reads.entry.sources.now) core.0 place
        (instr ∷ rest) walk.old.registers
        ≡ walk.new.writes.items
        ++ spec.writes_of
        (spec.returned reads.entry.test.now reads.entry.writes.now reads.entry.sources.now) core.0 (place + 1) rest
        walk.new.registers) }
    ensures registers { IfOk result (λ _. (rest : List Instr)
        → spec.left_of (spec.returned reads.entry.test.now reads.entry.writes.now reads.entry.sources.now) core.0 place (instr ∷ rest) walk.old.registers
        ≡ spec.left_of (spec.returned reads.entry.test.now reads.entry.writes.now reads.entry.sources.now) core.0 (place + 1) rest walk.new.registers) }
{
    let action = instr.action();
    let word = word_given(reads, core, place, action);
    match action {
        Action::Store(loc, operand) => {
            let value = known_operand(&walk.registers, operand);
            note(walk, core, place, Kind::W, loc, value)
        }
        Action::Load(reg, _) => {
            walk.registers[reg.index()] = word;
            Ok(())
        }
        Action::Move(change) => {
            change_known(&mut walk.registers, change);
            Ok(())
        }
        Action::Fence => Ok(()),
        Action::Lock(loc, target, update) => {
            let value = known_update(update, &walk.registers, word);
            take_known(&mut walk.registers, target, word);
            note(walk, core, place, Kind::LW, loc, value)
        }
    }
}

/// Runs a core's program, where these writes are known before.
pub fn run_program(walk: &mut Walk, reads: Reads<'_>, core: Core) -> Result<(), NoMemory>
    requires { core.0 < length reads.test.now.programs }
    ensures writes { IfOk result (λ _. walk.new.writes.items ≡ walk.old.writes.items
        ++ spec.writes_of (spec.returned reads.entry.test.now reads.entry.writes.now reads.entry.sources.now) core.0 0
        (slice_index_or reads.entry.test.now.programs core.0 []) walk.old.registers) }
    ensures registers { IfOk result (λ _. walk.new.registers
        ≡ spec.left_of (spec.returned reads.entry.test.now reads.entry.writes.now reads.entry.sources.now) core.0 0
        (slice_index_or reads.entry.test.now.programs core.0 []) walk.old.registers) }
{
    let mut place = 0;
    for instr in reads.test.program(core) {
        run_instruction(walk, reads, core, place, *instr)?;
        place += 1;
    }
    Ok(())
}

/// A core's registers at first, each known.
pub fn known_first_registers(test: &Test, core: Core) -> [Option<u32>; 6]
    requires { core.0 < length test.now.programs }
    ensures { result ≡ spec.known_first_registers test.now.registers core.0 }
{
    let first = test.initial_registers(core);
    [
        Some(first[0]),
        Some(first[1]),
        Some(first[2]),
        Some(first[3]),
        Some(first[4]),
        Some(first[5]),
    ]
}
