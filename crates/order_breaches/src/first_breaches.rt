//! Laws on breaches, with nothing to run: an order has a first breach exactly where it is no TSO execution, and only one.
ghost use Rattle.std.specs.Prelude.{◌≡◌, ◌↔◌, ◌⊎◌, List};
ghost use Rattle.tso_terms.specs.Litmus.{Litmus};
ghost use Rattle.tso_terms.specs.ProgramEntries.{made};
ghost use Rattle.tso_terms.specs.Axioms.{IsWhole, KeepsProgramOrder, IsAdjacent, HasReadValues, IsTsoExecution};
ghost use Rattle.tso_terms.specs.declared.execution.Entry.{Entry};
ghost use Rattle.order_breaches.specs.declared.breach.Breach.{Breach};
ghost use Rattle.order_breaches.specs.First.{IsNowhere};
ghost use Rattle.order_breaches.specs.Entries.{IsStray, IsMissing, IsWrongWrite};
ghost use Rattle.order_breaches.specs.AxiomBreaches.{IsLate, IsSeparated, IsWrongRead};
ghost use Rattle.order_breaches.specs.FirstBreach.{IsFirstBreach};

/// An order is whole exactly where no entry is extra, there twice, missing or a write of a wrong
/// value, and each of the other axioms holds exactly where no entry breaks it.
pub fn axioms_fail_by_breaches()
    ensures whole { (t : Litmus) (order : List Entry) → IsWhole t order
        ↔ (IsNowhere order (IsStray (made t order) order) × IsNowhere (made t order) (IsMissing order)
        × IsNowhere order (IsWrongWrite (made t order))) }
    ensures program_order { (order : List Entry) → KeepsProgramOrder order ↔ IsNowhere order (IsLate order) }
    ensures adjacent { (order : List Entry) → IsAdjacent order ↔ IsNowhere order (IsSeparated order) }
    ensures read_values { (t : Litmus) (order : List Entry)
        → HasReadValues t order ↔ IsNowhere order (IsWrongRead t order) }
{}

/// An order has at most one first breach.
pub fn first_breach_is_one()
    ensures { (t : Litmus) (order : List Entry) (b c : Breach)
        → IsFirstBreach t order b → IsFirstBreach t order c → b ≡ c }
{}

/// Each order is a TSO execution or has a first breach.
pub fn each_order_is_judged()
    ensures { (t : Litmus) (order : List Entry)
        → IsTsoExecution t order ⊎ ((b : Breach) × IsFirstBreach t order b) }
{}

/// An order with a first breach is no TSO execution.
pub fn first_breach_is_real()
    ensures { (t : Litmus) (order : List Entry) (b : Breach)
        → IsFirstBreach t order b → ¬ IsTsoExecution t order }
{}
