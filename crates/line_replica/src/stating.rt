//! What answers lines, and can be brought back by lines.

ghost use Rattle.std.specs.Prelude.{◌≡◌, ◌++◌, ◌<◌, ◌≤◌, ◌+◌, ◌^◌, ℕ, List, length, IfOk, OnOk};
ghost use Rattle.line_service.specs.Answering.{joined_lines};

use crate::replica::Replica;
use line_service::AnswersLines;
use std::alloc::AllocError;

/// How many lines there are. A number of lines that no memory holds is reported as out of memory.
fn sum_of(inside: u64, keys: u64, places: u64) -> Result<u64, AllocError>
    requires { (inside < 2 ^ 63) × (keys < 2 ^ 63) × (places ≤ 1) }
    ensures sum { IfOk result (λ n. n ≡ inside + (keys + places)) }
    ensures few { IfOk result (λ n. n < 2 ^ 63) }
{
    let sum = inside + (keys + places);
    if sum > i64::MAX as u64 {
        return Err(AllocError);
    }
    Ok(sum)
}

/// What answers lines, and has lines that bring it back to its present state.
pub trait HasState: AnswersLines {
    /// The lines that bring a new service to the state of this one.
    ghost state_lines: { Self → List (List ℕ) };

    /// Adds these lines to a text, and says how many they are.
    ///
    /// # Errors
    ///
    /// Out of memory.
    fn put_state(&self, text: &mut Vec<u8>) -> Result<u64, AllocError>
        ensures lines { OnOk result (text.new.items
            ≡ text.old.items ++ joined_lines (state_lines self.now)) }
        ensures count { IfOk result (λ n. n ≡ length (state_lines self.now)) }
        ensures few { IfOk result (λ n. n < 2 ^ 63) };
}

impl<S: HasState> HasState for Replica<S> {
    ghost use Rattle.line_replica.specs.State.{lines_of};

    ghost state_lines = { lines_of S.state_lines };

    fn put_state(&self, text: &mut Vec<u8>) -> Result<u64, AllocError> {
        let inside = match self.numbered.inner.put_state(text) {
            Ok(count) => count,
            Err(AllocError) => return Err(AllocError),
        };
        let keys = match self.numbered.keys.put(text) {
            Ok(count) => count,
            Err(AllocError) => return Err(AllocError),
        };
        let places = match self.running.put(text) {
            Ok(count) => count,
            Err(AllocError) => return Err(AllocError),
        };
        sum_of(inside, keys, places)
    }
}
