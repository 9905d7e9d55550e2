//! Laws of order texts: a printed order is read back as it was, and each text is read in one way. Each is the contract of a
//! function that does nothing: who calls it knows it.

ghost use Rattle.std.specs.Prelude.{◌≡◌, ◌↔◌, ◌<◌, ◌^◌, ◌++◌, ◌⊎◌, ℕ, List, All, Ok, Err, length};
ghost use Rattle.tso_terms.specs.Litmus.{Litmus, IsTest};
ghost use Rattle.tso_terms.specs.declared.execution.Entry.{Entry};
ghost use Rattle.order_builder.specs.PrintedOrder.{HasLocation, printed_lines, printed_order};
ghost use Rattle.order_builder.specs.inner.Reading.{order_of};
ghost use Rattle.order_builder.specs.Spelling.{HasFault, IsLineBeforeOrder, IsOrderFor, SpellsOrder};
ghost use Rattle.order_builder.specs.declared.fault.OrderFault.{OrderFault};

/// What is printed of an order of a test spells that order, by itself, and also whatever stands
/// after it, and whatever lines come before it, none of which is `Order`.
pub fn printed_order_is_spelled()
    ensures alone { (t : Litmus) (order : List Entry) → IsTest t → IsOrderFor t order → SpellsOrder t (printed_order t order) order }
    ensures amid { (t : Litmus) (order : List Entry) (front : List (List ℕ)) (rest text : List ℕ)
        → IsTest t → IsOrderFor t order → All IsLineBeforeOrder front
        → text ≡ printed_lines front ++ (printed_order t order ++ rest) → SpellsOrder t text order }
{}

/// What is read of a text is what it spells, or its fault.
pub fn reading_is_spelling()
    ensures order { (t : Litmus) (text : List ℕ) (order : List Entry) → IsTest t → length text < 2 ^ 64
        → (order_of t text ≡ Ok order ↔ SpellsOrder t text order) }
    ensures fault { (t : Litmus) (text : List ℕ) (fault : OrderFault) → IsTest t
        → (order_of t text ≡ Err fault ↔ HasFault t text fault) }
{}

/// A text spells one order of a test at most, and has one fault exactly where it spells none.
pub fn order_is_spelled_once()
    ensures once { (t : Litmus) (text : List ℕ) (order other : List Entry) → IsTest t → length text < 2 ^ 64
        → SpellsOrder t text order → SpellsOrder t text other → order ≡ other }
    ensures either { (t : Litmus) (text : List ℕ) → IsTest t → length text < 2 ^ 64
        → ((order : List Entry) × SpellsOrder t text order) ⊎ ((fault : OrderFault) × HasFault t text fault) }
    ensures never_both { (t : Litmus) (text : List ℕ) (order : List Entry) (fault : OrderFault) → IsTest t → length text < 2 ^ 64
        → SpellsOrder t text order → HasFault t text fault → ⊥ }
    ensures one_fault { (t : Litmus) (text : List ℕ) (fault other : OrderFault) → IsTest t
        → HasFault t text fault → HasFault t text other → fault ≡ other }
{}

/// An order of a test has what it needs to be printed.
pub fn order_can_be_printed()
    ensures { (t : Litmus) (order : List Entry) → IsOrderFor t order → All (HasLocation t) order }
{}
