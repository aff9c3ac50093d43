//! What is known of every repair.

ghost use Rattle.history_repairs.specs.Repairs.{RepairsAreBounded};

/// No repair of a legal history takes more granted passes than the bound.
#[tactic(auto, using(crate::proofs::Bounded::repairs_are_bounded))]
pub fn repairs_are_bounded<C>()
    ensures { RepairsAreBounded C }
{}
