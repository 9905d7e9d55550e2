//! Litmus tests within the limits. Whoever has a test has one whose names, numbers and lengths fit together; nothing after
//! it tests them again.
ghost use Rattle.std.specs.Prelude.{◌≡◌, ◌<◌, ◌≤◌, ◌↔◌, length, slice_index, slice_index_or, [], IsSome, IfSome, All};
ghost use Rattle.std.specs.Option.{option_map};
ghost use Rattle.tso_terms.specs.Condition.{condition_of};
ghost use Rattle.tso_terms.specs.Limits.{most_instructions};
ghost use Rattle.tso_terms.specs.Registers.{index_of};
ghost use Rattle.tso_terms.specs.Litmus.{IsTest, KnownLocation};
ghost use Rattle.tso_terms.specs.LitmusParts.{litmus_of};

use crate::condition::Cond;
use crate::instruction::{Core, Instr, Loc};
use crate::register::Reg;
use crate::validity::parts_fit;
use std::marker::Model;

/// What a test is made of, before its limits are known to hold.
pub struct TestParts {
    pub name: String,
    /// The names of the locations, in the order of their numbers.
    pub locations: Vec<String>,
    /// The first word of each location.
    pub words: Vec<u32>,
    /// The first registers of each core, in the order of `Reg::ALL`.
    pub registers: Vec<[u32; 6]>,
    pub programs: Vec<Vec<Instr>>,
    pub cond: Option<Cond>,
}

// Said by hand, so that who lets a test go makes one call, and not one for each part.
impl Drop for TestParts {
    fn drop(self) {
        let TestParts {
            name: _name,
            locations: _locations,
            words: _words,
            registers: _registers,
            programs: _programs,
            cond: _cond,
        } = self;
    }
}

/// A litmus test within the limits: each name that its programs and its condition use exists.
#[derive(Drop)]
pub struct Test {
    parts: TestParts,
}

impl Model for Test {
    ghost use Rattle.std.specs.Coded.{codes};
    ghost use Rattle.tso_terms.specs.inner.ConditionCode.{claim_code};
    ghost use Rattle.tso_terms.specs.Litmus.{Litmus};

    ghost Value = { Litmus };

    ghost coded = { Prim.hlevel (codes, claim_code) };

    ghost use Rattle.tso_terms.specs.Litmus.{IsTest};
    ghost use Rattle.tso_terms.specs.LitmusParts.{litmus_of};

    ghost view = { λ t. litmus_of t.parts };

    ghost invariant = { λ t. IsTest (litmus_of t.parts) };
}

impl Test {
    /// The test that these parts make. `None` exactly where they pass a limit: a name that the
    /// grammar can't spell or a location's name that comes twice, no core or more than
    /// `MAX_CORES`, more than `MAX_LOCATIONS` locations, lists that aren't as long as they must be,
    /// a program of more than `MAX_INSTRUCTIONS`, a condition of more than `MAX_ATOMS` atoms or
    /// with more than `MAX_OPEN` negations within one another, or a core or location that an
    /// instruction or an atom names and that isn't there.
    pub fn new(parts: TestParts) -> Option<Test>
        ensures value { IfSome result (λ t. t ≡ litmus_of parts) }
        ensures valid { IsSome result ↔ IsTest (litmus_of parts) }
    {
        if parts_fit(&parts) {
            Some(Test { parts })
        } else {
            None
        }
    }

    /// The test that these parts make, for whoever knows already that they keep every limit, as a reader does that
    /// judged them one by one: nothing is looked at again.
    pub fn from_valid_parts(parts: TestParts) -> Test
        requires { IsTest (litmus_of parts) }
        ensures { result ≡ litmus_of parts }
    {
        Test { parts }
    }

    /// The test's name.
    pub fn name(&self) -> &str
        ensures { result.now ≡ self.now.name }
    {
        &self.parts.name
    }

    /// How many cores the test has, from 1 to `MAX_CORES`.
    pub fn cores(&self) -> u8
        ensures value { result ≡ length self.now.programs }
        ensures test { IsTest self.now }
    {
        self.parts.programs.len() as u8
    }

    /// Does nothing: from the call on it is known that the test is within its limits.
    pub fn know_limits(&self)
        ensures { IsTest self.now }
    {
        let _cores = self.cores();
    }

    /// How many locations the test has, from 0 to `MAX_LOCATIONS`.
    pub fn locations(&self) -> u8
        ensures value { result ≡ length self.now.locations }
        ensures test { IsTest self.now }
    {
        self.parts.locations.len() as u8
    }

    /// A core's program.
    pub fn program(&self, core: Core) -> &[Instr]
        requires { core.0 < length self.now.programs }
        ensures value { result.now ≡ slice_index_or self.now.programs core.0 [] }
        ensures size { length result.now ≤ most_instructions }
        ensures locations { All (KnownLocation (length self.now.locations)) result.now }
        ensures words { length self.now.words ≡ length self.now.locations }
    {
        &self.parts.programs[core.0 as usize]
    }

    /// A location's name.
    pub fn location_name(&self, loc: Loc) -> &str
        requires { loc.0 < length self.now.locations }
        ensures { result.now ≡ slice_index_or self.now.locations loc.0 [] }
    {
        &self.parts.locations[loc.0 as usize]
    }

    /// A location's first word.
    pub fn initial_word(&self, loc: Loc) -> u32
        requires { loc.0 < length self.now.locations }
        ensures { result ≡ slice_index self.now.words loc.0 }
    {
        self.parts.words[loc.0 as usize]
    }

    /// The first words of all locations, by number.
    pub fn initial_words(&self) -> &[u32]
        ensures value { result.now ≡ self.now.words }
        ensures each { length result.now ≡ length self.now.locations }
    {
        &self.parts.words
    }

    /// A register's first value in a core.
    pub fn initial_register(&self, core: Core, reg: Reg) -> u32
        requires { core.0 < length self.now.programs }
        ensures { result ≡ slice_index (slice_index_or self.now.registers core.0 []) (index_of reg) }
    {
        self.initial_registers(core)[reg.index()]
    }

    /// A core's first registers, in the order of `Reg::ALL`.
    pub fn initial_registers(&self, core: Core) -> [u32; 6]
        requires { core.0 < length self.now.programs }
        ensures { result ≡ slice_index_or self.now.registers core.0 [] }
    {
        self.parts.registers[core.0 as usize]
    }

    /// The condition, if the test has one.
    pub fn cond(&self) -> Option<&Cond>
        ensures value { option_map (λ c. condition_of c.now) result ≡ self.now.condition }
        ensures test { IsTest self.now }
    {
        self.parts.cond.as_ref()
    }
}
