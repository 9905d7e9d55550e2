//! How large a test may be, and how deep the store buffer of a core. What is larger is refused, so that counters can't
//! overflow, and time and room have bounds that are known.

ghost use Rattle.std.specs.Prelude.{◌≡◌};
ghost use Rattle.tso_terms.specs.Limits.{most_cores, most_locations, most_instructions, most_atoms, most_open};
ghost use Rattle.tso_terms.specs.Limits.{longest_name, longest_test_name, least_depth, most_depth};

/// Maximum number of cores of a test.
pub const MAX_CORES: usize = 8;

/// Maximum number of locations of a test.
pub const MAX_LOCATIONS: usize = 16;

/// Maximum length of a core's program, in instructions.
pub const MAX_INSTRUCTIONS: usize = 32;

/// Maximum size of a condition, in atoms; `true` and `false` count.
pub const MAX_ATOMS: usize = 256;

/// Maximum nesting of a condition's negations, and of the brackets of its text.
pub const MAX_OPEN: usize = 64;

/// Maximum length of a location's name, in bytes.
pub const MAX_NAME: usize = 32;

/// Maximum length of a test's name, in bytes.
pub const MAX_TEST_NAME: usize = 64;

/// Minimum depth of a store buffer, in stores.
pub const MIN_DEPTH: u8 = 1;

/// Maximum depth of a store buffer, in stores.
pub const MAX_DEPTH: u8 = 32;

/// Each limit is the number that the definitions have: a law, with nothing to run.
pub fn limits_are_as_defined()
    ensures cores { MAX_CORES ≡ most_cores }
    ensures locations { MAX_LOCATIONS ≡ most_locations }
    ensures instructions { MAX_INSTRUCTIONS ≡ most_instructions }
    ensures atoms { MAX_ATOMS ≡ most_atoms }
    ensures nesting { MAX_OPEN ≡ most_open }
    ensures name { MAX_NAME ≡ longest_name }
    ensures test_name { MAX_TEST_NAME ≡ longest_test_name }
    ensures shallowest { MIN_DEPTH ≡ least_depth }
    ensures deepest { MAX_DEPTH ≡ most_depth }
{}
