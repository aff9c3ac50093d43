//! A service that answers with its state if it is asked for it.

ghost use Rattle.std.specs.Prelude.{◌≡◌, ◌++◌, ◌⊎◌, List, ℕ, [], OnOk, IfOk};
ghost use Rattle.line_replica.specs.State.{is_state, state_text};

use crate::stating::HasState;
use disks::Disk;
use line_service::{AnswersLines, EndFault, Pending, Segmented};
use segment_files::DIGEST_DIGITS;
use std::alloc::{AllocError, Global};
use text_lines::{LINE_LIMIT, fixed_word, with_number};

/// A service that answers lines, and the line `state` with the lines that bring it back.
#[derive(Drop)]
pub struct Restorable<S> {
    pub(crate) inner: S,
}

/// Whether the state is asked.
#[tactic(auto, unfolding(crate::specs::State::is_state))]
fn is_state(line: &[u8]) -> bool
    ensures { result ≡ is_state line.now }
{
    if line.len() > LINE_LIMIT {
        return false;
    }
    match fixed_word(line, b"state\n") {
        Ok(more) => more.is_empty(),
        Err(_) => false,
    }
}

/// Adds the lines of the state, and how many they are.
fn tell_state<S: HasState>(service: &S, text: &mut Vec<u8>) -> Result<(), AllocError>
    ensures { OnOk result (text.new.items
        ≡ text.old.items ++ state_text (S.state_lines service.now)) }
{
    match service.put_state(text) {
        Ok(count) => text.extend_from_slice(with_number(b"state ", count).as_bytes()),
        Err(AllocError) => Err(AllocError),
    }
}

impl<S> Restorable<S> {
    /// This service, and its state where it is asked.
    pub fn new(inner: S) -> Restorable<S>
        ensures { result.inner ≡ inner }
    {
        Restorable { inner }
    }

    /// The service inside.
    pub fn inner(&self) -> &S
        ensures { result.now ≡ self.now.inner }
    {
        &self.inner
    }
}

impl<S: HasState> AnswersLines for Restorable<S> {
    ghost use Rattle.line_replica.specs.State.{IsRestorable};
    ghost use Rattle.line_replica.specs.Restoring.{by_start};

    ghost is_answered = { IsRestorable S.is_answered S.state_lines };

    ghost is_over = { λ r. S.is_over r.inner };

    ghost changes_files = { λ r. S.changes_files r.inner };

    ghost by_start = { by_start S.is_answered S.state_lines S.by_start };

    fn answer<D: Disk>(
        &mut self,
        disk: &mut D,
        line: &[u8],
        pending: &mut Pending,
    ) -> Result<(), AllocError> {
        if is_state(line) {
            return tell_state(&self.inner, &mut pending.answers);
        }
        self.inner.answer(disk, line, pending)
    }

    fn is_over(&self) -> bool {
        self.inner.is_over()
    }
}

impl<S: HasState + Segmented> Segmented for Restorable<S> {
    ghost use Rattle.line_replica.specs.Restoring.{segmenting, knows};

    ghost segmenting = { segmenting S.segmenting };

    ghost knows = { knows S.is_answered S.state_lines S.knows };

    ghost goes = { λ r e. S.goes r.inner e };

    fn is_due(&self) -> bool {
        self.inner.is_due()
    }

    fn next(&self, alloc: Global) -> Result<Restorable<S>, EndFault> {
        match self.inner.next(alloc) {
            Ok(inner) => Ok(Restorable { inner }),
            Err(why) => Err(why),
        }
    }

    fn text(
        &self,
        alloc: Global,
        number: u64,
        behind: [u8; DIGEST_DIGITS],
    ) -> Result<Vec<u8>, EndFault> {
        self.inner.text(alloc, number, behind)
    }

    fn keep_on(&mut self, why: EndFault) {
        self.inner.keep_on(why);
    }
}
