//! What `trace` prints of two runs: a buffered store that answers its own core's load, leaves, goes to another core, is written over and
//! is written back; and the same line asked for and awaited on a split bus.

ghost use Rattle.std.specs.Prelude.{◌≡◌};
ghost use Rattle.protocol_tables.specs.declared.kind.ProtocolKind.TheVariants.{Msi};
ghost use Rattle.trace_report.specs.Lines.{trace_text};
ghost use Rattle.trace_report.specs.Steps.{trace_under};
ghost use Rattle.worked_examples.specs.PrintedTraces.{printed, handed_on, one_line, handed_on_choices, handed_on_trace};
ghost use Rattle.worked_examples.specs.PrintedTraces.{awaited, two_words, awaited_choices, awaited_trace};

/// Two traces of MSI, each line as it is printed: its number, the choice and its outcome, the entries, the move, what the access
/// was, what it asked for and for which line, whose copy went to memory, which line was written back, each line whose state changed,
/// by core and then by line, and the buffer.
pub fn worked_traces()
    ensures handed_on { trace_text handed_on 1 (trace_under handed_on Msi one_line handed_on_choices) ≡ printed handed_on_trace }
    ensures awaited { trace_text awaited 2 (trace_under awaited Msi two_words awaited_choices) ≡ printed awaited_trace }
{}
