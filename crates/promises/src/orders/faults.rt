//! Which fault a text of an order has, and what a breach is, field by field.

ghost use Rattle.std.specs.Prelude.{◌+◌, ◌<◌, ◌∷◌, ◌≡◌, ◌≢◌, List, length, true, ℕ};
ghost use Rattle.order_breaches.specs.AxiomBreaches.{IsWrongRead, Overtakes, due_at, must_stand_before};
ghost use Rattle.order_builder.specs.Spelling.{BeginsOrder, HasBadCount, HasBadLine, HasNoCount, IsNoEnd, IsNoEntry};
ghost use Rattle.tso_terms.specs.Litmus.{Litmus};
ghost use Rattle.tso_terms.specs.ProgramOrder.{is_read};
ghost use Rattle.tso_terms.specs.declared.execution.Entry.{Entry};

/// A bad line is the first after the entries, is none of them and no end, and has its number.
pub fn a_bad_line_follows_the_entries()
    ensures begins { (t : Litmus) (text : List ℕ) (number : ℕ) (said : HasBadLine t text number)
        → BeginsOrder t text said.before said.order (said.line ∷ said.after) }
    ensures no_entry { (t : Litmus) (text : List ℕ) (number : ℕ) (said : HasBadLine t text number) → IsNoEntry t said.line }
    ensures no_end { (t : Litmus) (text : List ℕ) (number : ℕ) (said : HasBadLine t text number) → IsNoEnd said.line }
    ensures numbered { (t : Litmus) (text : List ℕ) (number : ℕ) (said : HasBadLine t text number)
        → number ≡ length said.before + length said.order + 2 }
{}

/// A bad count follows the entries.
pub fn a_bad_count_follows_the_entries()
    ensures begins { (t : Litmus) (text : List ℕ) (said : HasBadCount t text)
        → BeginsOrder t text said.before said.order said.rest }
    ensures no_count { (t : Litmus) (text : List ℕ) (said : HasBadCount t text) → HasNoCount (length said.order) said.rest }
{}

/// Who overtakes stands sooner, though the other must come before.
pub fn an_entry_overtook_another()
    ensures sooner { (at : ℕ) (a : Entry) (j : ℕ) (b : Entry) → Overtakes at a j b → j < at }
    ensures swapped { (at : ℕ) (a : Entry) (j : ℕ) (b : Entry) → Overtakes at a j b → must_stand_before a b ≡ true }
{}

/// A wrong read is a read, of another value than is due.
pub fn a_wrong_read_has_another_value()
    ensures read { (t : Litmus) (order : List Entry) (at : ℕ) (x : Entry) → IsWrongRead t order at x → is_read x ≡ true }
    ensures wrong { (t : Litmus) (order : List Entry) (at : ℕ) (x : Entry) → IsWrongRead t order at x
        → x.value ≢ due_at t order at x }
{}
