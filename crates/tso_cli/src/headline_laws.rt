//! What the headline decides by itself. Each law is the contract of a function that does nothing: who calls it knows it.

ghost use Rattle.std.specs.Prelude.{◌≡◌, ℕ, Bool, List, Option};
ghost use Rattle.protocol_tables.specs.declared.kind.ProtocolKind.{ProtocolKind};
ghost use Rattle.multiprocessor.specs.Configuration.{Configuration};
ghost use Rattle.command_line.specs.Explanation.{Explanation};
ghost use Rattle.litmus_tokens.specs.declared.instructions.Instructions.{Instructions};
ghost use Rattle.scheduler.specs.Plan.{Plan};
ghost use Rattle.command_line.specs.Search.{Search};
ghost use Rattle.tso_cli.specs.Dividing.{parts_of};
ghost use Rattle.tso_cli.specs.Headline.{InputHeadline};
ghost use Rattle.tso_cli.specs.OneReason.{AreOneReason};
ghost use Rattle.tso_cli.specs.OneSearch.{AreOneSearch};
ghost use Rattle.tso_cli.specs.OneText.{AreOneRun, AreOneTrace, AreOneWitness};
ghost use Rattle.command_line.specs.declared.settings.Settings.{Settings};

use crate::answers::texts_are_read_one_way;
use axiom_checker::first_breaches::each_order_is_judged;
use litmus_reader::test_texts::texts_are_decided;
use order_builder::order_texts::order_is_spelled_once;
use search_report::alike_outcomes::outcomes_of_the_same_values_are_alike;

/// The headline leaves one text for each input of `check`, of `sweep` and of `counts`, of `run` and `trace` where no run
/// ends, and of `witness` where it finds no choices. Of a run that ended it leaves open how many choices were used,
/// stalled and left over, and the counts of the caches, and nothing else; of choices that lead to an
/// order, which they are. Of `outcomes` it leaves open which choices lead to each state, and, where the machine can reach more
/// states than may be kept, whether all are shown or some; lines and JSON of one test show the same states, where both show all. Of `why` it leaves open which
/// refutation or which execution is printed, and, where a limit is too small, whether one is; never is it the one and the other.
pub fn headlines_leave_one_text()
    ensures runs { (kind : ProtocolKind) (c : Configuration) (set : Instructions) (json : Bool) (input out other : List ℕ)
        → InputHeadline (Settings.Run kind c set json) input out → InputHeadline (Settings.Run kind c set json) input other
        → AreOneRun kind c json out other }
    ensures traces { (kind : ProtocolKind) (c : Configuration) (set : Instructions) (json : Bool) (input out other : List ℕ)
        → InputHeadline (Settings.Trace kind c set json) input out → InputHeadline (Settings.Trace kind c set json) input other
        → AreOneTrace kind c json out other }
    ensures sweeps { (kind : ProtocolKind) (c : Configuration) (set : Instructions) (plan : Plan) (input out other : List ℕ)
        → InputHeadline (Settings.Sweep kind c set plan) input out → InputHeadline (Settings.Sweep kind c set plan) input other → out ≡ other }
    ensures counts { (kind : ProtocolKind) (c : Configuration) (set : Instructions) (plan : Option Plan) (json : Bool) (input out other : List ℕ)
        → InputHeadline (Settings.Counts kind c set plan json) input out → InputHeadline (Settings.Counts kind c set plan json) input other → out ≡ other }
    ensures checks { (set : Instructions) (input out other : List ℕ)
        → InputHeadline (Settings.Check set) input out → InputHeadline (Settings.Check set) input other → out ≡ other }
    ensures witnesses { (depth : ℕ) (set : Instructions) (input out other : List ℕ)
        → InputHeadline (Settings.Witness depth set) input out → InputHeadline (Settings.Witness depth set) input other → AreOneWitness depth out other }
    ensures outcomes { (search : Search) (set : Instructions) (json again assert asserted : Bool) (input out other : List ℕ)
        → InputHeadline (Settings.Outcomes search set json assert) input out → InputHeadline (Settings.Outcomes search set again asserted) input other
        → AreOneSearch set (parts_of input).test search json again out other }
    ensures reasons { (plan another : Explanation) (set : Instructions) (json again assert asserted : Bool) (input out other : List ℕ)
        → plan.model ≡ another.model
        → InputHeadline (Settings.Why plan set json assert) input out → InputHeadline (Settings.Why another set again asserted) input other
        → AreOneReason set (parts_of input).test plan another json again out other }
{
    texts_are_read_one_way();
    texts_are_decided();
    order_is_spelled_once();
    each_order_is_judged();
    outcomes_of_the_same_values_are_alike();
}
