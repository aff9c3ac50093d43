//! A law of the last segment: a function with an empty body, whose contract is the law.

ghost use Rattle.ring_service.specs.ChainRecovered.{SegmentsKeepCalls};

/// Wherever rings stop to answer lines in segments, the file of the last one keeps the answers: of whatever is kept of it, if it has
/// the notes of the delivered lines, rings are recovered that have the call of each delivered line in this segment, with its answer.
pub fn segments_keep_calls()
    ensures { SegmentsKeepCalls }
{}
