//! The worked texts and reports.

/// A ring with a grant at machine 0, a refusal there and a grant at machine 2, and what a seat
/// saw at its end.
pub(super) const PASSES: &[u8] =
    b"ringfarm 1\nring 0 3 3\nstart 0 2 0\np 0 0 5 g 1 5\np 0 0 1 n\np 0 2 4 g 2 9\nend 3\ns 0 3 1 1 2 0\ndone 1\n";

/// A ring with two corruptions of machine 1, and a ring of one machine without events.
pub(super) const TWO_RINGS: &[u8] =
    b"ringfarm 1\nring 0 3 3\nstart 0 0 0\nc 0 1 2 0\nc 0 1 2 2\nend 2\ns 0 2 3 0 0 6\nring 1 1 1\nstart 4294967295\nend 0\ndone 2\n";

/// The passes in the second version.
pub(super) const LATER_PASSES: &[u8] =
    b"ringfarm 2\nring 0 3 3\nstart 0 2 0\np 0 0 5 g 1 5\np 0 0 1 n\np 0 2 4 g 2 9\nend 3\ns 0 3 1 1 2 0\ndone 1\n";

/// The two rings in the second version.
pub(super) const LATER_TWO_RINGS: &[u8] =
    b"ringfarm 2\nring 0 3 3\nstart 0 0 0\nc 0 1 2 0\nc 0 1 2 2\nend 2\ns 0 2 3 0 0 6\nring 1 1 1\nstart 4294967295\nend 0\ndone 2\n";

/// A ring whose machines 0, 1 and 3 passed at once, and what the seat saw then.
pub(super) const GROUP: &[u8] =
    b"ringfarm 2\nring 0 4 4\nstart 0 2 1 0\nm 0 1 2 2 1 2\nm 0 0 2 1 2 4\nm 0 3 2 0 3 6\nend 3\ns 0 3 3 0 3 9\ndone 1\n";

/// The passes and the two rings in both versions, and the group, which only the second version has.
pub(super) const TEXTS: [&[u8]; 5] = [PASSES, TWO_RINGS, LATER_PASSES, LATER_TWO_RINGS, GROUP];

/// Two rings of two clients: in the first client 1 comes first, and in the second client 0 looks
/// twice.
pub(super) const TWO_CLIENTS: &[u8] =
    b"ringfarm 2\nring 0 2 2\nstart 0 0\np 1 0 7 g 1 7\np 0 0 1 n\nend 2\ns 0 2 1 1 1 0\ns 1 1 1 1 1 0\nring 1 3 3\nstart 0 0 0\nc 0 1 2 0\nc 1 1 2 2\nend 2\ns 0 1 3 0 0 6\ns 0 2 3 0 0 6\ns 1 2 3 0 0 6\ndone 2\n";

/// A value that is written over itself, and what seat 0 saw then.
pub(super) const CORRUPTIONS: &[u8] =
    b"ringfarm 2\nring 0 3 3\nstart 0 0 0\nc 0 1 2 0\nc 0 1 2 2\nend 2\ns 0 2 3 0 0 6\ndone 1\n";

/// The report on two rings that were corrupted: the first settled again, the second did not.
pub(super) const CORRUPTED_REPORT: &[u8] =
    b"ring 0 n 3 k 3 events 9 granted 6 refused 2 corrupted 1 surveys 3\nstates 1,1,1\nprivileged 1 first 0 calm 3 rest 0 bound 9\ngrants 1,2,3 settled 0,1,1\nring 1 n 4 k 5 events 2 granted 1 refused 0 corrupted 1 surveys 1\nstates 1,2,1,0\nprivileged 3 first 1 calm 1 rest 14 bound 18\ngrants 1,0,0,0 settled 0,0,0,0\ntotal rings 2 events 11 granted 7 surveys 4\n";

/// The report on a ring of two machines without events.
pub(super) const WIDE_REPORT: &[u8] =
    b"ring 0 n 2 k 256 events 0 granted 0 refused 0 corrupted 0 surveys 0\nstates 255,10\nprivileged 1 first 1 calm 0 rest 0 bound 3\ngrants 0,0 settled 0,0\ntotal rings 1 events 0 granted 0 surveys 0\n";

/// The report on a ring whose three machines passed at once, each of them granted.
pub(super) const GROUP_REPORT: &[u8] =
    b"ring 0 n 4 k 4 events 3 granted 3 refused 0 corrupted 0 surveys 1\nstates 1,0,1,1\nprivileged 3 first 0 calm 3 rest 9 bound 18\ngrants 1,1,0,1 settled 0,0,0,0\ntotal rings 1 events 3 granted 3 surveys 1\n";

/// The report on no ring.
pub(super) const NO_RINGS_REPORT: &[u8] = b"total rings 0 events 0 granted 0 surveys 0\n";
