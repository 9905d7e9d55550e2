//! What `why` prints of a refutation refutes, read by hand, and tells of which test and model it is.

ghost use Rattle.printed_laws.specs.ByHand.{PrintedLinesRefute, RefutingLinesAreRefutations};
ghost use Rattle.printed_laws.specs.Reasons.{ReasonsTellTheirTests};

/// What `why` prints of lemmas and a tree that refute what the test asks refutes it, read by hand. Each line that closes a case says why,
/// in the words for a node that may stand there and has no branches. Each question may be asked, and each answer to it has a case.
/// Whatever lines do so, whoever wrote them: some lemmas and a tree refute the claim, so it is never true.
pub fn printed_lines_refute()
    ensures printed { PrintedLinesRefute }
    ensures read { RefutingLinesAreRefutations }
{}

/// The lines of a refutation tell the test's name, the model, and how many of them close a case.
pub fn reasons_tell_their_tests()
    ensures { ReasonsTellTheirTests }
{}
