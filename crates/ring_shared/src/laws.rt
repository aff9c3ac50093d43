//! Laws of the clauses themselves: a law is the contract of a function that does nothing.

ghost use Rattle.ring_shared.specs.OneAnswer.{CallsAreToldAlike, GroupsAreToldAlike, CallsHaveOneOutcome, GroupsHaveOneOutcome};

use crate::names::Name;

/// A call has one answer: whatever a body does, if it meets the clauses of [`Ring::pass`](crate::Ring::pass) or
/// [`Ring::corrupt`](crate::Ring::corrupt), then its receipt, its log and the list that its seat has seen follow from the events
/// before its own. And under the lock the book follows too.
pub fn calls_have_one_answer<N: Name, C>()
    ensures told { CallsAreToldAlike C }
    ensures under_lock { CallsHaveOneOutcome C N.legal }
{}

/// A group's call has one answer: whatever a body does, if it meets the clauses of
/// [`Ring::pass_group`](crate::Ring::pass_group), then its answer, its log and the list that its seat has seen follow from the
/// events before its block. And under the lock the book follows too.
pub fn groups_have_one_answer<N: Name, C>()
    ensures told { GroupsAreToldAlike C }
    ensures under_lock { GroupsHaveOneOutcome C N.legal }
{}
