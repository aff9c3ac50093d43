//! The laws of rings whose history is a chain of segments. Each law is the contract of a function that does nothing; the
//! statements are in `specs/Endless.antt`.

ghost use Rattle.endless_ring.specs.Endless.{ChainsGrow, ReceiptsAreRight, SurveysNowAreRight};

/// A ring's segments are a chain, whatever is called, and wherever a segment ends.
pub fn chains_grow()
    ensures { ChainsGrow }
{}

/// The receipts and the surveys of a ring are those of the one-thread ring after the whole chain.
pub fn answers_are_right()
    ensures receipts { ReceiptsAreRight }
    ensures surveys { SurveysNowAreRight }
{}
