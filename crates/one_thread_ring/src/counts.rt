//! The counts of rings.

ghost use Rattle.std.specs.Prelude.{◌≡◌};
ghost use Rattle.ring_model.specs.Surveys.{granted_count};

use ring_model::{Event, Reply};

/// The sums over rings.
#[derive(Clone, Copy)]
pub struct Totals {
    pub events: u64,
    pub granted: u64,
    pub surveys: u64,
}

/// How many passes of a history were granted.
pub fn granted(history: &[Event]) -> usize
    ensures { result ≡ granted_count history.now }
{
    history
        .iter()
        .filter(|event| matches!(event.reply, Reply::Granted { .. }))
        .count()
}
