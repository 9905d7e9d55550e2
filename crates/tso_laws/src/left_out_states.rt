//! The laws of what a search for all ends of a test's runs may leave out: eager choices, made first, lose no end, and neither
//! do dead registers, or one of two states that differ by which of two alike cores is which. A choice that is called eager
//! and isn't, a register called dead that is read, or cores called alike that differ, would make a search miss final states.

ghost use Rattle.tso_laws.specs.Closed.{ClosedStatesMissNone, PartlyClosedStatesMissNone};
ghost use Rattle.tso_laws.specs.Dead.{DeadRegistersChangeNothing};
ghost use Rattle.tso_laws.specs.Eager.{EagerChoicesTakeEffect};
ghost use Rattle.tso_laws.specs.Exchanged.{AlikeCoresAreExchangeable};

use crate::runs_stop_where_they_end;

/// A list of states that has what eager choices make of the first state, and of each state what each choice, with eager
/// choices after it, makes of it, has the last state of every run that ends. In each of these a dead register may hold 0, and
/// cores that are alike may be exchanged.
pub fn closed_states_miss_none()
    ensures { ClosedStatesMissNone }
{
    runs_stop_where_they_end();
}

/// So has a list that has, of some of its states, only what the choices of a stubborn set make of them.
pub fn partly_closed_states_miss_none()
    ensures { PartlyClosedStatesMissNone }
{
    runs_stop_where_they_end();
}

/// What dead registers hold changes no choice, and nothing that is seen at the end.
pub fn dead_registers_change_nothing()
    ensures { DeadRegistersChangeNothing }
{}

/// Cores that are alike may be exchanged: with each other's names they do the same.
pub fn alike_cores_are_exchangeable()
    ensures { AlikeCoresAreExchangeable }
{}

/// An eager choice takes effect: it stalls nowhere.
pub fn eager_choices_take_effect()
    ensures { EagerChoicesTakeEffect }
{}
