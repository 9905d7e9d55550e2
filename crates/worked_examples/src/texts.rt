//! Texts that spell tests, each with its test.

ghost use Rattle.litmus_reader.specs.Spelling.{SpellsTest};
ghost use Rattle.litmus_tokens.specs.declared.instructions.Instructions.TheVariants.{Basic, All};
ghost use Rattle.worked_examples.specs.EightInstructions.{eight};
ghost use Rattle.worked_examples.specs.SpelledTexts.{whole_text, whole_test, least_text, least_test, eight_text, larger_text, larger_test};

/// What these texts spell: one with each section of a test, the shortest one, and one of all eight instructions; and one of the larger
/// set, in it.
pub fn worked_texts()
    ensures whole { SpellsTest Basic whole_text whole_test }
    ensures least { SpellsTest Basic least_text least_test }
    ensures eight { SpellsTest Basic eight_text eight }
    ensures whole_in_larger_set { SpellsTest All whole_text whole_test }
    ensures larger { SpellsTest All larger_text larger_test }
{}
