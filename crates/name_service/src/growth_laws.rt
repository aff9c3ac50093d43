//! What is true of pools that grow.

ghost use Rattle.name_service.specs.Growth.{PoolWantedIsOne, NextWantsNoRing};

/// A pool should have one number of rings.
pub fn pool_wanted_is_one()
    ensures { PoolWantedIsOne }
{}

/// The next segment is not due because no ring is free.
pub fn next_wants_no_ring()
    ensures { NextWantsNoRing }
{}
