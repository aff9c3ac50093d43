//! Laws of the outcome of a farm: a law is the contract of a function that does nothing.

ghost use Rattle.ring_farm.specs.Consequences.{RingsAreLawful, FarmsAreLawful};
ghost use Rattle.ring_farm.specs.OneOutcome.{LogsFollow};

/// The outcome of [`run_farm`](crate::run_farm) for a ring follows from its settings, its history and the places at which its
/// clients looked: two logs of one seat with their entries at the same places are the same.
pub fn logs_follow()
    ensures { LogsFollow }
{}

/// The promise on a ring of a farm has consequences, the same for each: the record `IsLawfulRing` names them. So they are not
/// promises of their own: they follow from the headline.
pub fn farms_are_lawful()
    ensures rings { RingsAreLawful }
    ensures farms { FarmsAreLawful }
{}
