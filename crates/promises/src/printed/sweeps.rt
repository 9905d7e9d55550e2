//! What the lines of a sweep tell, and which states `outcomes` prints, part by part.

ghost use Rattle.std.specs.Prelude.{◌≡◌, All, List, ℕ};
ghost use Rattle.multiprocessor.specs.Configuration.{Configuration, IsConfigurationWithinLimits};
ghost use Rattle.protocol_tables.specs.declared.kind.ProtocolKind.{ProtocolKind};
ghost use Rattle.scheduler.specs.Plan.{Plan, IsPlanWithinLimits};
ghost use Rattle.search_report.specs.Outcomes.{Outcome, shown_values};
ghost use Rattle.tso_cli.specs.Fitting.{CountsFitTest, IsStateAt};
ghost use Rattle.tso_cli.specs.Outcomes.{AreAllOutcomes};
ghost use Rattle.tso_cli.specs.Sweep.{sweep_lines};
ghost use Rattle.tso_report.specs.Tally.{RunCounts, runs_in};
ghost use Rattle.tso_report.specs.declared.named.Named.{Named};
ghost use Rattle.tso_terms.specs.Litmus.{IsTest, Litmus};

use printed_laws::{
    printed_states_fit_their_test, sweeps_tell_their_counts, sweeps_tell_their_machines,
};

/// Sweeps of which the same is printed counted the same.
pub fn two_sweeps_are_told_apart()
    ensures { (t : Litmus) (kind : ProtocolKind) (c : Configuration) (plan : Plan) (counts other : RunCounts)
        → CountsFitTest t counts → CountsFitTest t other
        → sweep_lines t kind c plan counts ≡ sweep_lines t kind c plan other → counts ≡ other }
{
    sweeps_tell_their_counts();
}

/// Sweeps of which the same is printed are of tests of one name, on machines of one protocol and configuration, and have one plan.
pub fn a_sweep_names_its_machine()
    ensures test { (t u : Litmus) (kind other_kind : ProtocolKind) (c d : Configuration) (plan other_plan : Plan) (counts other : RunCounts)
        → IsTest t → IsTest u → IsConfigurationWithinLimits c → IsConfigurationWithinLimits d → IsPlanWithinLimits plan
        → IsPlanWithinLimits other_plan → runs_in counts ≡ plan.seeds → runs_in other ≡ other_plan.seeds
        → sweep_lines t kind c plan counts ≡ sweep_lines u other_kind d other_plan other → t.name ≡ u.name }
    ensures protocol { (t u : Litmus) (kind other_kind : ProtocolKind) (c d : Configuration) (plan other_plan : Plan) (counts other : RunCounts)
        → IsTest t → IsTest u → IsConfigurationWithinLimits c → IsConfigurationWithinLimits d → IsPlanWithinLimits plan
        → IsPlanWithinLimits other_plan → runs_in counts ≡ plan.seeds → runs_in other ≡ other_plan.seeds
        → sweep_lines t kind c plan counts ≡ sweep_lines u other_kind d other_plan other → kind ≡ other_kind }
    ensures configuration { (t u : Litmus) (kind other_kind : ProtocolKind) (c d : Configuration) (plan other_plan : Plan) (counts other : RunCounts)
        → IsTest t → IsTest u → IsConfigurationWithinLimits c → IsConfigurationWithinLimits d → IsPlanWithinLimits plan
        → IsPlanWithinLimits other_plan → runs_in counts ≡ plan.seeds → runs_in other ≡ other_plan.seeds
        → sweep_lines t kind c plan counts ≡ sweep_lines u other_kind d other_plan other → c ≡ d }
    ensures plan { (t u : Litmus) (kind other_kind : ProtocolKind) (c d : Configuration) (plan other_plan : Plan) (counts other : RunCounts)
        → IsTest t → IsTest u → IsConfigurationWithinLimits c → IsConfigurationWithinLimits d → IsPlanWithinLimits plan
        → IsPlanWithinLimits other_plan → runs_in counts ≡ plan.seeds → runs_in other ≡ other_plan.seeds
        → sweep_lines t kind c plan counts ≡ sweep_lines u other_kind d other_plan other → plan ≡ other_plan }
{
    sweeps_tell_their_machines();
}

/// Each state that `outcomes` prints has a word for each value that is shown.
pub fn a_printed_state_fits_its_test()
    ensures { (t : Litmus) (names : List Named) (depth : ℕ) (outcomes : List Outcome)
        → IsTest t → AreAllOutcomes t names depth outcomes → All (λ o. IsStateAt names (shown_values names o)) outcomes }
{
    printed_states_fit_their_test();
}
