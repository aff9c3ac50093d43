//! Why no answer to a line is pending.

ghost use Rattle.std.specs.Prelude.{◌≡◌};
ghost use Rattle.lock_journal.specs.Answering.{put};

use std::alloc::AllocError;

/// Why no answer to a line is pending.
#[derive(Clone, Copy)]
pub enum Untold {
    /// There is no memory for its text. It is answered.
    Answered,
    /// It would be a refusal for lack of room or memory, on strict terms. Nothing has changed.
    Unanswered,
}

/// The answer is pending, if there was memory for it. The line is answered in any case.
pub fn put(told: Result<(), AllocError>) -> Result<(), Untold>
    ensures { result ≡ put told }
{
    match told {
        Ok(()) => Ok(()),
        Err(_) => Err(Untold::Answered),
    }
}
