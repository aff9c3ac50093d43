//! What is wrong with a line.

ghost use Rattle.std.specs.Prelude.{◌≡◌, ℕ, ◌<◌, ◌≤◌, Some, None, length, slice_get, true};
ghost use Rattle.name_bindings.specs.Bindings.{Bound};
ghost use Rattle.name_check.specs.Judged.{spent, refused_top, taken, refused_new, refused_trust, refused_again, refused_bind, refused_free, refused_grant, refused_repair, refused_end, refused_file};
ghost use Rattle.name_check.specs.Kept.{seen, IsSound};

use crate::lines::{Due, Ring};
use crate::notes::Notes;
use crate::table::Counts;
use crate::wrongs::Wrong;

/// Whether no more grants can be counted.
fn spent(top: u64) -> Option<Wrong>
    ensures { result ≡ spent top }
{
    if top == u64::MAX {
        Some(Wrong::Full)
    } else {
        None
    }
}

pub(crate) fn refused_top(due: Due, top: u64, said: u64) -> Option<Wrong>
    ensures { result ≡ refused_top due top said }
{
    match due {
        Due::Top => {
            if said == top {
                None
            } else {
                Some(Wrong::WrongTop)
            }
        }
        Due::Nothing => Some(Wrong::SecondTop),
        Due::Restated(_) => Some(Wrong::NotRestated),
        Due::Granted(_) => Some(Wrong::NoGrant),
        Due::Handed(_) => Some(Wrong::NotFreed),
    }
}

/// Whose the name is already.
fn taken(fixed: usize, ring: Option<usize>) -> Option<Wrong>
    ensures { result ≡ taken fixed ring }
{
    match ring {
        Some(ring) => {
            if ring < fixed {
                Some(Wrong::FixedName)
            } else {
                Some(Wrong::BoundTwice)
            }
        }
        None => None,
    }
}

/// What is wrong with a new binding.
fn refused_new(notes: &Notes, ring: usize, name: &str, counts: Counts, known: Ring) -> Option<Wrong>
    ensures { result ≡ refused_new (seen notes.now) ring (record {
      name = name.now;
      before = counts.before;
      floor = counts.floor;
    }) known }
{
    if ring < notes.fixed {
        Some(Wrong::FixedRing)
    } else if known.held.is_some() {
        Some(Wrong::HeldRing)
    } else if counts.before != known.grants {
        Some(Wrong::WrongBefore)
    } else if counts.floor != notes.top {
        Some(Wrong::WrongFloor)
    } else {
        taken(notes.fixed, notes.names.find(name))
    }
}

/// What is wrong with a binding that is taken on trust.
fn refused_trust(notes: &Notes, name: &str, counts: Counts, known: Ring) -> Option<Wrong>
    requires { known.grants ≤ notes.now.top }
    ensures { result ≡ refused_trust (seen notes.now) (record {
      name = name.now;
      before = counts.before;
      floor = counts.floor;
    }) known }
{
    if counts.before >= known.grants {
        return Some(Wrong::WrongBefore);
    }
    if counts.floor > notes.top - (known.grants - counts.before) {
        return Some(Wrong::WrongFloor);
    }
    taken(notes.fixed, notes.names.find(name))
}

/// What is wrong with a binding that is restated.
fn refused_again(
    notes: &Notes,
    ring: usize,
    name: &str,
    counts: Counts,
    known: Ring,
) -> Option<Wrong>
    requires ring { ring < length notes.now.names }
    requires counted { known.grants ≤ notes.now.top }
    ensures { result ≡ refused_again (seen notes.now) (record {
      name = name.now;
      before = counts.before;
      floor = counts.floor;
    }) known (slice_get notes.now.names ring) }
{
    match notes.names.is_bound(ring, name, counts) {
        Some(same) => {
            if same {
                None
            } else {
                Some(Wrong::OtherBinding)
            }
        }
        None => refused_trust(notes, name, counts, known),
    }
}

pub(crate) fn refused_bind(
    notes: &Notes,
    ring: usize,
    name: &str,
    counts: Counts,
    known: Ring,
) -> Option<Wrong>
    requires ring { ring < length notes.now.names }
    requires counted { known.grants ≤ notes.now.top }
    ensures { result ≡ refused_bind notes.now.due (seen notes.now) ring (record {
      name = name.now;
      before = counts.before;
      floor = counts.floor;
    }) known }
{
    match notes.due {
        Due::Restated(due) => {
            if ring == due {
                refused_again(notes, ring, name, counts, known)
            } else {
                Some(Wrong::NotRestated)
            }
        }
        Due::Nothing => refused_new(notes, ring, name, counts, known),
        Due::Top => Some(Wrong::NoTop),
        Due::Granted(_) => Some(Wrong::NoGrant),
        Due::Handed(_) => Some(Wrong::NotFreed),
    }
}

pub(crate) fn refused_free(due: Due, ring: usize) -> Option<Wrong>
    ensures { result ≡ refused_free due ring }
{
    match due {
        Due::Handed(ended) => {
            if ring == ended {
                None
            } else {
                Some(Wrong::NotFreed)
            }
        }
        Due::Nothing => Some(Wrong::NotEnded),
        Due::Top => Some(Wrong::NoTop),
        Due::Restated(_) => Some(Wrong::NotRestated),
        Due::Granted(_) => Some(Wrong::NoGrant),
    }
}

pub(crate) fn refused_grant(
    due: Due,
    fixed: usize,
    top: u64,
    ring: usize,
    known: Ring,
) -> Option<Wrong>
    ensures { result ≡ refused_grant due fixed top ring known }
{
    match due {
        Due::Granted(bound) => {
            if ring == bound {
                spent(top)
            } else {
                Some(Wrong::NoGrant)
            }
        }
        Due::Handed(ended) => {
            if ring == ended {
                spent(top)
            } else {
                Some(Wrong::NotFreed)
            }
        }
        Due::Nothing => {
            if known.held.is_some() {
                Some(Wrong::GrantedTwice)
            } else if ring < fixed {
                spent(top)
            } else {
                Some(Wrong::NoName)
            }
        }
        Due::Top => Some(Wrong::NoTop),
        Due::Restated(_) => Some(Wrong::NotRestated),
    }
}

pub(crate) fn refused_repair(due: Due, top: u64) -> Option<Wrong>
    ensures { result ≡ refused_repair due top }
{
    match due {
        Due::Nothing => spent(top),
        Due::Top => Some(Wrong::NoTop),
        Due::Restated(_) => Some(Wrong::NotRestated),
        Due::Granted(_) => Some(Wrong::NoGrant),
        Due::Handed(_) => Some(Wrong::NotFreed),
    }
}

pub(crate) fn refused_end(due: Due, known: Ring) -> Option<Wrong>
    ensures { result ≡ refused_end due known }
{
    match due {
        Due::Nothing => {
            if known.held.is_some() {
                None
            } else {
                Some(Wrong::NotHeld)
            }
        }
        Due::Top => Some(Wrong::NoTop),
        Due::Restated(_) => Some(Wrong::NotRestated),
        Due::Granted(_) => Some(Wrong::NoGrant),
        Due::Handed(_) => Some(Wrong::NotFreed),
    }
}

/// Whether the next file has fewer rings.
fn fewer(count: usize, rings: usize) -> Option<Wrong>
    ensures { result ≡ refused_file Due.Nothing count rings }
{
    if rings < count {
        Some(Wrong::FewerRings)
    } else {
        None
    }
}

pub(crate) fn refused_file(due: Due, count: usize, rings: usize) -> Option<Wrong>
    ensures { result ≡ refused_file due count rings }
{
    match due {
        Due::Nothing => fewer(count, rings),
        Due::Handed(_) => fewer(count, rings),
        Due::Top => Some(Wrong::NoTop),
        Due::Restated(_) => Some(Wrong::NotRestated),
        Due::Granted(_) => Some(Wrong::NoGrant),
    }
}
