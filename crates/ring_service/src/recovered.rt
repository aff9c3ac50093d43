//! The laws of answered calls: what is recovered of a journal has them, and so has the history of a chain of segments.

ghost use Rattle.ring_service.specs.InChains.{CallsAreInChains};
ghost use Rattle.ring_service.specs.Recovered.{AnswersAreRecovered};

/// Of some lines that were answered with a journal some were delivered. The journal begins with the saved rings, continues with the
/// notes of the lines, and may be cut anywhere after those of the delivered ones: then the rings are recovered as they were after
/// some line, and have the call of each delivered line at its place, with the answer that was delivered.
pub fn answered_calls_are_recovered()
    ensures { AnswersAreRecovered }
{}

/// Where the segment of a recovered ring is one of a chain, the events of each answered call are in the history of the whole chain,
/// and the answer is the reply there: a grant has its number among all grants, a group its place among all events.
pub fn answered_calls_are_in_chains()
    ensures { CallsAreInChains }
{}
