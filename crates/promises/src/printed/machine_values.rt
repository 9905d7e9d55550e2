//! What the JSON value of a machine tells, field by field.

ghost use Rattle.std.specs.Prelude.{◌≡◌, ◌<◌, List, length, map, ℕ};
ghost use Rattle.std.specs.Option.{option_map};
ghost use Rattle.multiprocessor.specs.Configuration.{Configuration};
ghost use Rattle.machine_core.specs.Looking.{bus_holder_of};
ghost use Rattle.machine_core.specs.Running.{Running};
ghost use Rattle.printed_laws.specs.TracedMachines.{AreWordsOf, ShowTheSameMachine, copies_shown, holder_shown, machine_under};
ghost use Rattle.printed_laws.specs.Traces.{bare_store};
ghost use Rattle.protocol_tables.specs.declared.kind.ProtocolKind.{ProtocolKind};
ghost use Rattle.serde_json.specs.Written.{compact_text};
ghost use Rattle.trace_report.specs.MachineJson.{machine_json};
ghost use Rattle.tso_terms.specs.FlatMachine.{core_of};
ghost use Rattle.tso_terms.specs.Litmus.{IsTest, Litmus};
ghost use Rattle.tso_terms.specs.Runs.{CoresExist};
ghost use Rattle.tso_terms.specs.Thread.{value_in};
ghost use Rattle.basic_laws.specs.Types.{Choice, Reg};

use printed_laws::values_of_machines_tell_them;

/// Values of machines that are the same are those of machines that show the same.
pub fn machines_are_told_apart()
    ensures { (t : Litmus) (kind other_kind : ProtocolKind) (c d : Configuration) (choices other : List Choice)
        (own other_own : List ℕ) → IsTest t → CoresExist (length t.programs) choices → CoresExist (length t.programs) other
        → AreWordsOf t own → AreWordsOf t other_own
        → compact_text (machine_json (machine_under t kind c choices) own)
        ≡ compact_text (machine_json (machine_under t other_kind d other) other_own)
        → ShowTheSameMachine t (machine_under t kind c choices) (machine_under t other_kind d other) own other_own }
{
    values_of_machines_tell_them();
}

/// What machines share that show the same.
pub fn what_machines_show()
    ensures bus { (t : Litmus) (m n : Running) (own other : List ℕ) → ShowTheSameMachine t m n own other
        → option_map (holder_shown m) (bus_holder_of m) ≡ option_map (holder_shown n) (bus_holder_of n) }
    ensures places { (t : Litmus) (m n : Running) (own other : List ℕ) → ShowTheSameMachine t m n own other
        → (core : ℕ) → core < length t.programs
        → (core_of m.state.flat core).place ≡ (core_of n.state.flat core).place }
    ensures registers { (t : Litmus) (m n : Running) (own other : List ℕ) → ShowTheSameMachine t m n own other
        → (core : ℕ) → core < length t.programs → (reg : Reg)
        → value_in (core_of m.state.flat core).registers reg ≡ value_in (core_of n.state.flat core).registers reg }
    ensures buffers { (t : Litmus) (m n : Running) (own other : List ℕ) → ShowTheSameMachine t m n own other
        → (core : ℕ) → core < length t.programs
        → map bare_store (core_of m.state.flat core).pending ≡ map bare_store (core_of n.state.flat core).pending }
    ensures copies { (t : Litmus) (m n : Running) (own other : List ℕ) → ShowTheSameMachine t m n own other
        → (core : ℕ) → core < length t.programs
        → copies_shown m core 0 m.statistics.caches.shape.sets ≡ copies_shown n core 0 n.statistics.caches.shape.sets }
    ensures memory { (t : Litmus) (m n : Running) (own other : List ℕ) → ShowTheSameMachine t m n own other → own ≡ other }
    ensures seen { (t : Litmus) (m n : Running) (own other : List ℕ) → ShowTheSameMachine t m n own other
        → m.state.flat.memory ≡ n.state.flat.memory }
{}
