//! The laws of joined files: the contract of a function with an empty body.

ghost use Rattle.chain_readers.specs.JoinLaws.{JoinedHaveRings, JoinedIsLegal, JoinedIsOfChains};

/// What is joined of the files of a chain has as many rings as a saved text may have. If the chain begins with the first file of
/// all, it is legal, and each ring has the history of the chain of its segments.
pub fn joined_laws()
    ensures rings { JoinedHaveRings }
    ensures legal { JoinedIsLegal }
    ensures histories { JoinedIsOfChains }
{}
