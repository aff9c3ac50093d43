//! Which ring is held, whether rings are the same, and whether a file has begun.

ghost use Rattle.std.specs.Prelude.{◌≡◌, ◌↔◌, ℕ, length, IsTrue};
ghost use Rattle.name_check.specs.Judged.{first_held, restated};
ghost use Rattle.name_check.specs.Kept.{unbegun};

use crate::lines::{Due, Ring};
use crate::wrongs::Wrong;

/// The first ring that is held, from this one on.
fn first_held(rings: &[Ring], low: usize) -> Option<usize>
    ensures { result ≡ first_held low 0 rings.now }
{
    for at in low..rings.len() {
        if rings[at].held.is_some() {
            return Some(at);
        }
    }
    None
}

/// The binding of that ring is due.
pub(crate) fn restated(rings: &[Ring], low: usize) -> Due
    ensures { result ≡ restated (first_held low 0 rings.now) }
{
    match first_held(rings, low) {
        Some(ring) => Due::Restated(ring),
        None => Due::Nothing,
    }
}

/// Whether a ring is known so.
fn is_same(known: Ring, ring: Ring) -> bool
    ensures { IsTrue result ↔ (known ≡ ring) }
{
    known.grants == ring.grants && known.held == ring.held
}

/// Whether the rings are known so.
pub(crate) fn are_same(known: &[Ring], rings: &[Ring]) -> bool
    ensures { IsTrue result ↔ (known.now ≡ rings.now) }
{
    if known.len() != rings.len() {
        return false;
    }
    for i in 0..known.len() {
        if !is_same(known[i], rings[i]) {
            return false;
        }
    }
    true
}

/// Why the last file may not end here.
pub(crate) fn unbegun(due: Due) -> Option<Wrong>
    ensures { result ≡ unbegun due }
{
    match due {
        Due::Top => Some(Wrong::NoTop),
        Due::Restated(_) => Some(Wrong::NotRestated),
        _ => None,
    }
}
