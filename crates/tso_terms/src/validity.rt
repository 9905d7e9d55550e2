//! Whether the parts of a test are within the limits. A case that is missing here would let a test be made on which a core
//! reads a location that has no word.
ghost use Rattle.std.specs.Prelude.{◌≡◌, ◌<◌, ◌≤◌, ◌-◌, ◌↔◌, length, IsTrue, All, map, string_bytes};
ghost use Rattle.std.specs.List.{list_all};
ghost use Rattle.std.specs.Option.{SomeIff, ForSome, option_map};
ghost use Rattle.tso_terms.specs.Condition.{NamesExist, atoms_in, negations_in, claim_of, condition_of};
ghost use Rattle.tso_terms.specs.Litmus.{IsTest, KnownLocation, IsProgram, IsCondition};
ghost use Rattle.tso_terms.specs.Litmus as litmus;
ghost use Rattle.tso_terms.specs.Names as names;
ghost use Rattle.tso_terms.specs.LitmusParts.{litmus_of};

use crate::condition::{Cond, Prop};
use crate::instruction::Instr;
use crate::limits::{MAX_ATOMS, MAX_CORES, MAX_INSTRUCTIONS, MAX_LOCATIONS, MAX_OPEN};
use crate::litmus::TestParts;
use crate::names::{is_location_name, is_test_name};
use crate::words::know_values;

/// Whether the parts make a test within the limits.
pub fn parts_fit(parts: &TestParts) -> bool
    ensures { IsTrue result ↔ IsTest (litmus_of parts.now) }
{
    know_values(parts);
    let cores = parts.programs.len();
    let locations = parts.locations.len();
    if !is_test_name(parts.name.as_bytes()) {
        return false;
    }
    if cores == 0 || cores > MAX_CORES || parts.registers.len() != cores {
        return false;
    }
    if locations > MAX_LOCATIONS || parts.words.len() != locations {
        return false;
    }
    if !names_fit(&parts.locations) || !are_distinct(&parts.locations) {
        return false;
    }
    if !programs_fit(&parts.programs, locations) {
        return false;
    }
    condition_fits(&parts.cond, cores, locations)
}

fn names_fit(locations: &[String]) -> bool
    ensures { result ≡ list_all names.is_location_name (map string_bytes locations.now) }
{
    for name in locations {
        if !is_location_name(name.as_bytes()) {
            return false;
        }
    }
    true
}

fn are_distinct(locations: &[String]) -> bool
    ensures { result ≡ litmus.are_distinct (map string_bytes locations.now) }
{
    for (at, name) in locations.iter().enumerate() {
        if is_among(name, &locations[at + 1..]) {
            return false;
        }
    }
    true
}

fn is_among(name: &str, locations: &[String]) -> bool
    ensures { result ≡ names.is_among name.now (map string_bytes locations.now) }
{
    for other in locations {
        if other.as_str() == name {
            return true;
        }
    }
    false
}

fn programs_fit(programs: &[Vec<Instr>], locations: usize) -> bool
    ensures { IsTrue result ↔ All (IsProgram locations) (map (λ program. program.items) programs.now) }
{
    for program in programs {
        if !program_fits(program, locations) {
            return false;
        }
    }
    true
}

fn program_fits(program: &[Instr], locations: usize) -> bool
    ensures { IsTrue result ↔ IsProgram locations program.now }
{
    if program.len() > MAX_INSTRUCTIONS {
        return false;
    }
    for instr in program {
        if !is_location_known(*instr, locations) {
            return false;
        }
    }
    true
}

fn is_location_known(instr: Instr, locations: usize) -> bool
    ensures { IsTrue result ↔ KnownLocation locations instr }
{
    match instr.action().location() {
        None => true,
        Some(loc) => usize::from(loc.0) < locations,
    }
}

fn condition_fits(cond: &Option<Cond>, cores: usize, locations: usize) -> bool
    ensures { IsTrue result ↔ ForSome (option_map condition_of cond.now) (IsCondition cores locations) }
{
    match cond {
        None => true,
        Some(cond) => claim_fits(cond, cores, locations),
    }
}

fn claim_fits(cond: &Cond, cores: usize, locations: usize) -> bool
    ensures { IsTrue result ↔ IsCondition cores locations (condition_of cond.now) }
{
    if !has_negations_within(&cond.prop, MAX_OPEN) {
        return false;
    }
    if atoms_left(&cond.prop, MAX_ATOMS).is_none() {
        return false;
    }
    names_exist(&cond.prop, cores, locations)
}

fn names_exist(prop: &Prop, cores: usize, locations: usize) -> bool
    ensures { IsTrue result ↔ NamesExist cores locations (claim_of prop.now) }
{
    match prop {
        Prop::Truth(_) => true,
        Prop::RegIs(core, _, _) => (core.0 as usize) < cores,
        Prop::LocIs(loc, _) => (loc.0 as usize) < locations,
        Prop::Not(inner) => names_exist(inner, cores, locations),
        Prop::And(left, right) | Prop::Or(left, right) => {
            names_exist(left, cores, locations) && names_exist(right, cores, locations)
        }
    }
}

/// How many more atoms may follow, where so many are allowed; `None` where there are more.
fn atoms_left(prop: &Prop, allowed: usize) -> Option<usize>
    ensures { SomeIff result (atoms_in (claim_of prop.now) ≤ allowed) (allowed - atoms_in (claim_of prop.now)) }
{
    match prop {
        Prop::Truth(_) | Prop::RegIs(..) | Prop::LocIs(..) => allowed.checked_sub(1),
        Prop::Not(inner) => atoms_left(inner, allowed),
        Prop::And(left, right) | Prop::Or(left, right) => {
            atoms_left(right, atoms_left(left, allowed)?)
        }
    }
}

fn has_negations_within(prop: &Prop, allowed: usize) -> bool
    ensures { IsTrue result ↔ (negations_in (claim_of prop.now) ≤ allowed) }
{
    match prop {
        Prop::Truth(_) | Prop::RegIs(..) | Prop::LocIs(..) => true,
        Prop::Not(inner) => allowed > 0 && has_negations_within(inner, allowed - 1),
        Prop::And(left, right) | Prop::Or(left, right) => {
            has_negations_within(left, allowed) && has_negations_within(right, allowed)
        }
    }
}
