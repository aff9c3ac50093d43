//! What is true of the bindings that are kept.

ghost use Rattle.name_history.specs.Kept.{KeptAreEnough};

/// Of what is kept, each grant has the binding that it has of all.
#[tactic(auto, using(crate::proofs::KeptBindings::kept_are_enough))]
pub fn kept_are_enough()
    ensures { KeptAreEnough }
{}
