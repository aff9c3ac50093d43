//! What locks by name promise, over every list of inputs. Each law is the contract of a function that does nothing; the
//! statements are in `specs/Promises.antt`, `specs/Alike.antt`, `specs/Leaves.antt` and `specs/Restored.antt`, of the machine in
//! `specs/Names.antt`.

ghost use Rattle.lock_names.specs.Promises.{NamedStays, NamesBegin, TokensOfNamesRise, WaitedIsKept, WaitedIsHeld, UsedAreHeld, UnusedCostsNothing, MoreIsTakenLast};
ghost use Rattle.lock_names.specs.Alike.{OwnBegin, NamesAreLocks};
ghost use Rattle.lock_names.specs.Leaves.{LeavesAreSettled};
ghost use Rattle.lock_names.specs.Restored.{NamesComeBack, FixedBegin, FixedComeBack, RightIsRestored};
ghost use Rattle.lock_names.specs.Sizes.{WantedIsOne};

/// The rings are named right in a beginning, and stay so, whatever is asked: of the pool those that are held have a name, and
/// no two rings have the same.
pub fn names_stay_right()
    ensures begin { NamesBegin }
    ensures stay { NamedStays }
{}

/// The tokens of a name rise with each grant, over all rings that it ever has, over restarts and over rings that are added.
pub fn tokens_of_names_rise()
    ensures { TokensOfNamesRise }
{}

/// A name keeps its ring, and how it is bound, as long as the ring is held. A client waits only for a ring that is held.
pub fn waited_is_kept()
    ensures kept { WaitedIsKept }
    ensures held { WaitedIsHeld }
{}

/// A ring of the pool has a name only while it is held; what is asked of a name that no ring has changes nothing, if it is not
/// for a hold.
pub fn unused_costs_nothing()
    ensures held { UsedAreHeld }
    ensures nothing { UnusedCostsNothing }
{}

/// Each name is answered as a lock of its own would be, one for each name, for ever; only the tokens differ, and an ask for a
/// hold may be refused because as many names are held as may be.
pub fn names_are_locks()
    ensures begin { OwnBegin }
    ensures alike { NamesAreLocks }
{}

/// A ring that is added is the last one that gets a name.
pub fn rings_are_added_last()
    ensures { MoreIsTakenLast }
{}

/// There is one size that a pool should have.
pub fn wanted_is_one()
    ensures { WantedIsOne }
{}

/// A client that leaves all names leaves all locks. After that each name of the pool whose lock is not held is forgotten, and
/// each grant is counted.
pub fn leaves_are_settled()
    ensures { LeavesAreSettled }
{}

/// Of a state after any inputs the names of the fixed rings, those of the pool, the number of all grants and the locks, as a
/// restart finds them, are all that is needed: they are the state after a restart, and it is right. What is right is refused
/// only for lack of memory.
pub fn names_come_back()
    ensures begin { FixedBegin }
    ensures back { NamesComeBack }
    ensures again { FixedComeBack }
    ensures right { RightIsRestored }
{}
