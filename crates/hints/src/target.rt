//! The cells that do here what an instruction or a statement of another language does, as a hint writes them.

use crate::line::{Filling, Line};
use crate::registers::parent_of;
use crate::tables::is_one_of;

const FOR_ONE: &str = "; {} is for {}: take a register that the core doesn't use";

/// One cell or two. A location and a register have their names, and an instruction of the larger set has its own.
#[derive(Clone, Copy)]
pub enum Target<'a> {
    StoreNumber(&'a [u8], u32),
    StoreRegister(&'a [u8], &'a [u8]),
    Load(&'a [u8], &'a [u8]),
    SetNumber(&'a [u8], u32),
    SetRegister(&'a [u8], &'a [u8]),
    Exchange(&'a [u8], &'a [u8]),
    Add(&'a [u8], &'a [u8]),
    /// A number is put into a register first.
    ExchangeNumber(&'a [u8], u32),
    AddNumber(&'a [u8], u32),
    CompareExchange(&'a [u8], &'a [u8]),
    CompareExchangeNumber(&'a [u8], u32),
    LockNumber(&'static str, &'a [u8], u32),
    LockRegister(&'static str, &'a [u8], &'a [u8]),
    LockAlone(&'static str, &'a [u8]),
    /// The second location's word is loaded first.
    LockLocation(&'static str, &'a [u8], &'a [u8]),
    CombineNumber(&'static str, &'a [u8], u32),
    CombineRegister(&'static str, &'a [u8], &'a [u8]),
    /// The location's word is loaded first.
    CombineLocation(&'static str, &'a [u8], &'a [u8]),
    Change(&'static str, &'a [u8]),
    Fence,
}

impl<'a> Target<'a> {
    /// The form of its cells, and what stands in the gaps.
    fn form(self) -> (&'static str, [Filling<'a>; 6]) {
        match self.larger_form() {
            Some(larger) => larger,
            None => {
                let (form, [first, second]) = self.basic_form();
                let none = Filling::Text("");
                (form, [first, second, none, none, none, none])
            }
        }
    }

    /// Whether it has an instruction of the larger set.
    pub fn is_larger(self) -> bool {
        self.larger_form().is_some()
    }

    /// Whether it computes a word of others, so that the number of bits counts.
    pub fn is_computed(self) -> bool {
        match self {
            Target::CombineRegister(name, ..) => !is_one_of("XCHG", name.as_bytes()),
            Target::LockNumber(..)
            | Target::LockRegister(..)
            | Target::LockAlone(..)
            | Target::LockLocation(..)
            | Target::CombineNumber(..)
            | Target::CombineLocation(..)
            | Target::Change(..) => true,
            _ => false,
        }
    }

    /// The form where an instruction of the larger set is in it.
    fn larger_form(self) -> Option<(&'static str, [Filling<'a>; 6])> {
        let none = Filling::Text("");
        let (form, fillings) = match self {
            Target::CompareExchange(loc, reg) => (
                "LOCK CMPXCHG [{}],{}",
                [Filling::Shown(loc), register(reg), none, none, none, none],
            ),
            Target::CompareExchangeNumber(loc, value) => (
                "MOV EBX,${}, and in the next cell LOCK CMPXCHG [{}],EBX, with a free register for EBX",
                [number(value), Filling::Shown(loc), none, none, none, none],
            ),
            Target::LockNumber(name, loc, value) => (
                "LOCK {} [{}],${}",
                [
                    Filling::Text(name),
                    Filling::Shown(loc),
                    number(value),
                    none,
                    none,
                    none,
                ],
            ),
            Target::LockRegister(name, loc, reg) => (
                "LOCK {} [{}],{}",
                [
                    Filling::Text(name),
                    Filling::Shown(loc),
                    register(reg),
                    none,
                    none,
                    none,
                ],
            ),
            Target::LockAlone(name, loc) => (
                "LOCK {} [{}]",
                [
                    Filling::Text(name),
                    Filling::Shown(loc),
                    none,
                    none,
                    none,
                    none,
                ],
            ),
            Target::LockLocation(name, to, from) => (
                "MOV EAX,[{}], and in the next cell LOCK {} [{}],EAX, with a free register for EAX",
                [
                    Filling::Shown(from),
                    Filling::Text(name),
                    Filling::Shown(to),
                    none,
                    none,
                    none,
                ],
            ),
            Target::CombineNumber(name, reg, value) => (
                "{} {},${}",
                [
                    Filling::Text(name),
                    register(reg),
                    number(value),
                    none,
                    none,
                    none,
                ],
            ),
            Target::CombineRegister(name, reg, other) => (
                "{} {},{}",
                [
                    Filling::Text(name),
                    register(reg),
                    register(other),
                    none,
                    none,
                    none,
                ],
            ),
            Target::CombineLocation(name, reg, loc) => {
                let free = free_beside(reg);
                (
                    "MOV {},[{}], and in the next cell {} {},{}, with a free register for {}",
                    [
                        free,
                        Filling::Shown(loc),
                        Filling::Text(name),
                        register(reg),
                        free,
                        free,
                    ],
                )
            }
            Target::Change(name, reg) => (
                "{} {}",
                [Filling::Text(name), register(reg), none, none, none, none],
            ),
            _ => return None,
        };
        Some((form, fillings))
    }

    fn basic_form(self) -> (&'static str, [Filling<'a>; 2]) {
        let none = Filling::Text("");
        match self {
            Target::StoreNumber(loc, value) => (
                "MOV [{}],${}",
                [Filling::Shown(loc), number(value)],
            ),
            Target::StoreRegister(loc, reg) => (
                "MOV [{}],{}",
                [Filling::Shown(loc), register(reg)],
            ),
            Target::Load(reg, loc) => ("MOV {},[{}]", [register(reg), Filling::Shown(loc)]),
            Target::SetNumber(reg, value) => ("MOV {},${}", [register(reg), number(value)]),
            Target::SetRegister(reg, other) => ("MOV {},{}", [register(reg), register(other)]),
            Target::Exchange(loc, reg) => ("XCHG [{}],{}", [Filling::Shown(loc), register(reg)]),
            Target::Add(loc, reg) => ("LOCK XADD [{}],{}", [Filling::Shown(loc), register(reg)]),
            Target::ExchangeNumber(loc, value) => (
                "MOV EAX,${}, and in the next cell XCHG [{}],EAX, with a free register for EAX",
                [number(value), Filling::Shown(loc)],
            ),
            Target::AddNumber(loc, value) => (
                "MOV EAX,${}, and in the next cell LOCK XADD [{}],EAX, with a free register for EAX",
                [number(value), Filling::Shown(loc)],
            ),
            _ => ("MFENCE", [none, none]),
        }
    }

    /// Its registers, of which a target with one has none second. A compare with an exchange has EAX too.
    fn registers(self) -> (&'a [u8], &'a [u8]) {
        match self {
            Target::CompareExchange(_, reg) => (reg, b"EAX"),
            Target::StoreRegister(_, reg)
            | Target::Load(reg, _)
            | Target::SetNumber(reg, _)
            | Target::Exchange(_, reg)
            | Target::Add(_, reg)
            | Target::LockRegister(_, _, reg)
            | Target::CombineNumber(_, reg, _)
            | Target::CombineLocation(_, reg, _)
            | Target::Change(_, reg) => (reg, &[]),
            Target::SetRegister(reg, other) | Target::CombineRegister(_, reg, other) => (
                reg, other,
            ),
            _ => (&[], &[]),
        }
    }

    /// The same with these registers.
    fn with_registers(self, first: &'a [u8], second: &'a [u8]) -> Target<'a> {
        match self {
            Target::StoreRegister(loc, _) => Target::StoreRegister(loc, first),
            Target::Load(_, loc) => Target::Load(first, loc),
            Target::SetNumber(_, value) => Target::SetNumber(first, value),
            Target::Exchange(loc, _) => Target::Exchange(loc, first),
            Target::Add(loc, _) => Target::Add(loc, first),
            Target::SetRegister(..) => Target::SetRegister(first, second),
            Target::CompareExchange(loc, _) => Target::CompareExchange(loc, first),
            Target::LockRegister(name, loc, _) => Target::LockRegister(name, loc, first),
            Target::CombineNumber(name, _, value) => Target::CombineNumber(name, first, value),
            Target::CombineRegister(name, ..) => Target::CombineRegister(name, first, second),
            Target::CombineLocation(name, _, loc) => Target::CombineLocation(name, first, loc),
            Target::Change(name, _) => Target::Change(name, first),
            other => other,
        }
    }
}

/// A register that is read, and isn't this one.
fn free_beside<'a>(reg: &[u8]) -> Filling<'a> {
    match parent_of(reg) {
        Some(parent) if parent == "EBX" => Filling::Text("EAX"),
        _ => Filling::Text("EBX"),
    }
}

/// Whether a word is a register that isn't read, nor a part of one that is.
fn is_foreign(word: &[u8]) -> bool {
    !word.is_empty() && parent_of(word).is_none()
}

/// The register that is written for another one, so that it isn't the one beside it.
fn written_for<'a>(word: &'a [u8], beside: &[u8]) -> &'a [u8] {
    let is_taken = match parent_of(beside) {
        Some(parent) => parent == "EAX",
        None => false,
    };
    match (is_foreign(word), is_taken) {
        (false, _) => word,
        (true, false) => b"EAX",
        (true, true) => b"EBX",
    }
}

/// Writes the cells, with a register that is read for each that isn't, and says so.
pub fn say_target(line: &mut Line, target: Target<'_>) {
    say_cells(line, target);
    say_registers(line, target);
}

/// Names the option that gives the larger set, where the cells have an instruction of it.
pub fn say_set(line: &mut Line, target: Target<'_>) {
    if target.is_larger() {
        line.say_option();
    }
}

/// Writes the cells, with a register that is read for each that isn't.
pub fn say_cells(line: &mut Line, target: Target<'_>) {
    let (first, second) = target.registers();
    let for_first = written_for(first, second);
    let for_second = written_for(second, for_first);
    let (form, fillings) = target.with_registers(for_first, for_second).form();
    line.say_with(form, &fillings);
}

/// Says which registers are written for others.
pub fn say_registers(line: &mut Line, target: Target<'_>) {
    let (first, second) = target.registers();
    let for_first = written_for(first, second);
    let for_second = written_for(second, for_first);
    let (sentence, named) = match (is_foreign(first), is_foreign(second)) {
        (true, true) => (
            "; {} is for {}, and {} for {}: take registers that the core doesn't use",
            [for_first, first, for_second, second],
        ),
        (true, false) => (FOR_ONE, [for_first, first, first, first]),
        (false, true) => (FOR_ONE, [for_second, second, second, second]),
        (false, false) => return,
    };
    line.say_with(sentence, &shown(named));
}

/// These bytes as what stands in gaps.
fn shown(named: [&[u8]; 4]) -> [Filling<'_>; 4] {
    [
        Filling::Shown(named[0]),
        Filling::Shown(named[1]),
        Filling::Shown(named[2]),
        Filling::Shown(named[3]),
    ]
}

/// Writes the cells that copy a location to another.
pub fn say_copy(line: &mut Line, to: &[u8], from: &[u8]) {
    line.say_with(
        "MOV EAX,[{}], and in the next cell MOV [{}],EAX, with a free register for EAX",
        &[Filling::Shown(from), Filling::Shown(to)],
    );
}

/// A register by the name that is read, or by its own if it has none.
fn register(name: &[u8]) -> Filling<'_> {
    match parent_of(name) {
        Some(parent) => Filling::Text(parent),
        None => Filling::Shown(name),
    }
}

fn number<'a>(value: u32) -> Filling<'a> {
    Filling::Number(value as usize)
}
