//! Laws of holds: functions with an empty body, whose contract is the law.

ghost use Rattle.chain_readers.specs.ChainLaws.{ChainHoldsExclude, ReadFilesTell};
ghost use Rattle.chain_readers.specs.Chains.{FilesTellHolds, BlocksTellHolds};
ghost use Rattle.chain_readers.specs.HoldLaws.{ReadAreHolds, RefusedAreNoHolds, HoldsAreOne, HoldsExclude, SignsRise};

/// What a reader knows after signs are the holds that they record, the only ones; and signs that it refuses record none.
pub fn holds_of_signs()
    ensures read { ReadAreHolds }
    ensures refused { RefusedAreNoHolds }
    ensures one { HoldsAreOne }
{}

/// Of a lock no two holds are open at a time, over all segments of a chain, and their tokens rise.
pub fn holds_exclude_each_other()
    ensures exclude { HoldsExclude }
    ensures signs { SignsRise }
    ensures chains { ChainHoldsExclude }
{}

/// Files that [`HoldChain`](crate::HoldChain) has read are a chain. What is known of a lock after them, or after a saved
/// history, are its holds.
pub fn holds_of_chains()
    ensures chain { ReadFilesTell }
    ensures files { FilesTellHolds }
    ensures blocks { BlocksTellHolds }
{}
