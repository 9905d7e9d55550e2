//! The laws of the machine on either bus: each run is followed by a run of the flat machine, so a split bus adds no
//! execution. Each law is in `specs/`, under the name of its function. (Primer, chapter 7, for the bus.)

ghost use Rattle.tso_laws.specs.BusLaws.{WhatHoldsSoFarOnEitherBus};
ghost use Rattle.tso_laws.specs.inner.BusLaws.{AttemptsLeadFromStateToState, RunsOnEitherBusStopWhereTheyEnd};
ghost use Rattle.tso_laws.specs.BusLaws.{EndedRunsOnEitherBusAreExecutions};
ghost use Rattle.tso_laws.specs.inner.BusLaws.{StallsOnEitherBusChangeNothing};
ghost use Rattle.tso_laws.specs.BusLaws.{RunsOnEitherBusAreFlatRuns, FairRoundsEndOnEitherBus};
ghost use Rattle.tso_laws.specs.inner.BusLaws.{NoBufferNoReorderingOnEitherBus};
ghost use Rattle.tso_laws.specs.BusLaws.{AtomicRunsAreFlatRuns};
ghost use Rattle.tso_laws.specs.inner.BusLaws.{AccessesWait, PendingStoresAreOwn};

use crate::{ended_runs_are_executions, no_buffer_no_reordering, runs_stop_where_they_end};

/// The states that choices can lead to with answers that the caches may give, and with what was
/// committed on the way: the first state is one, each choice leads from one to one, and each run
/// leads to one.
pub fn attempts_lead_from_state_to_state()
    ensures { AttemptsLeadFromStateToState }
{}

/// What holds in each state that choices lead to, whether the test has ended or not: the flat
/// machine comes to the same places, registers, pending stores and memory with the same commits,
/// each load part of a locked instruction put directly before its store part; between the two
/// parts no other entry of their core and no part of another locked instruction is committed; an
/// action that has asked still has its access to make, and the word that a locked instruction read
/// is still memory's. Where the test has ended nobody holds the bus.
pub fn what_holds_so_far_on_either_bus()
    ensures { WhatHoldsSoFarOnEitherBus }
{}

/// In each state that choices lead to, all that is pending at a core are plain stores of its own.
pub fn pending_stores_are_own()
    ensures { PendingStoresAreOwn }
{}

/// A run uses its choices up to the first moment at which the test has ended, and counts the
/// others as unused; after that moment no choice commits or changes anything, and nobody holds the
/// bus, whatever the caches answer.
pub fn runs_on_either_bus_stop_where_they_end()
    ensures { RunsOnEitherBusStopWhereTheyEnd }
{}

/// A choice that stalls changes nothing, not even who holds the bus, and commits nothing.
pub fn stalls_on_either_bus_change_nothing()
    ensures { StallsOnEitherBusChangeNothing }
{}

/// What an ended run commits, each load part of a locked instruction put directly before its store
/// part, is a TSO execution of the test, and its memory and registers are the final state of that
/// order.
pub fn ended_runs_on_either_bus_are_executions()
    ensures { EndedRunsOnEitherBusAreExecutions }
{
    ended_runs_are_executions();
}

/// Whether it has ended or not, a run is followed by a run of the flat machine, which makes a locked
/// instruction when its store part is committed here. It uses and stalls the choices that this one does,
/// but for those that were made for the bus alone: to ask, to wait, and to commit a load part.
pub fn runs_on_either_bus_are_flat_runs()
    ensures { RunsOnEitherBusAreFlatRuns }
{}

/// At depth 0, where no store is ever pending, the order of an ended run keeps every two entries of
/// program order, without exception: sequential consistency.
pub fn no_buffer_no_reordering_on_either_bus()
    ensures { NoBufferNoReorderingOnEitherBus }
{
    no_buffer_no_reordering();
}

/// A list that can be cut into three times as many rounds as all cores together have instructions,
/// and a rest, ends the test, whatever the caches answer.
pub fn fair_rounds_end_on_either_bus()
    ensures { FairRoundsEndOnEitherBus }
{}

/// An action that has an access to make has the same after any other choice of the flat machine.
pub fn accesses_wait()
    ensures { AccessesWait }
{}

/// On the atomic bus a run is the flat machine's, whatever the caches answer, and nobody holds the
/// bus; each answer fits. What the flat machine commits has the parts of its locked instructions
/// together already.
pub fn atomic_runs_are_flat_runs()
    ensures { AtomicRunsAreFlatRuns }
{
    runs_stop_where_they_end();
}
