//! How long a text and the name in it may be, and how deep a condition: by these, reading has a bound on its time and its
//! stack.
ghost use Rattle.std.specs.Prelude.{◌≡◌};
ghost use Rattle.tso_terms.specs.Limits.{most_open, longest_test_name};
ghost use Rattle.litmus_reader.specs.Limits.{longest_text};

/// Maximum length of a test text, in bytes.
pub const MAX_TEXT: usize = 65_536;

/// Maximum length of a test's name, in bytes.
pub const MAX_TEST_NAME: usize = tso_terms::limits::MAX_TEST_NAME;

/// Maximum number of negations and brackets of a condition that are open at once.
pub const MAX_OPEN: usize = tso_terms::limits::MAX_OPEN;

/// Each limit is the number that the definitions have: a law, with nothing to run.
pub fn limits_are_as_defined()
    ensures text { MAX_TEXT ≡ longest_text }
    ensures test_name { MAX_TEST_NAME ≡ longest_test_name }
    ensures nesting { MAX_OPEN ≡ most_open }
{}
