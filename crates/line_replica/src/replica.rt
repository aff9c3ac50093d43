//! A replica: a service with what is kept of keys, and the running digest of all that is answered.

ghost use Rattle.std.specs.Prelude.{◌≡◌, ◌++◌, List, ℕ, [], false, OnOk, OnErr};
ghost use Rattle.line_replica.specs.Reading.{did_at};
ghost use Rattle.line_replica.specs.Replies.{IsAdded, IsPassedOn, IsSetAt, IsTagTaken, IsTakenIn, IsTriedInside};
ghost use Rattle.line_service.specs.Stands.{LeavesFiles};
ghost use Rattle.line_replica.specs.State.{own_lines, remarks_of};
ghost use Rattle.line_replica.specs.Running.{at_place, next_of, place_line};

use crate::keys::Keys;
use crate::numbered::{Numbered, answer_tagged};
use crate::reading::Tag;
use crate::running::{Running, put_place};
use disks::Disk;
use line_service::{AnswersLines, Pending};
use std::alloc::{AllocError, Global};

/// A service that answers lines, with what is kept of keys, and the running digest of all that is answered.
#[derive(Drop)]
pub struct Replica<S> {
    pub(crate) numbered: Numbered<S>,
    pub(crate) running: Running,
    /// There was no memory for an answer, or to keep it: no line is answered any more.
    pub(crate) lost: bool,
}

/// The service inside answers a line, and the answer is taken into the digest.
pub(crate) fn answer_plain<S: AnswersLines, D: Disk>(
    replica: &mut Replica<S>,
    disk: &mut D,
    line: &[u8],
    pending: &mut Pending,
) -> Result<(), AllocError>
    requires { S.is_over replica.old.numbered.inner ≡ false }
    ensures ok { OnOk result ((said : List ℕ)
        × (noted : List ℕ)
        × IsTakenIn (λ a b. IsPassedOn S.is_answered a (D.holds disk.old) line.now said noted b
        (D.holds disk.new)) said replica.old replica.new
        × IsAdded pending.old pending.new said noted) }
    ensures err { OnErr result (IsTriedInside S.is_answered D.holds replica.old.numbered.inner
        disk.old line.now replica.new.numbered.inner disk.new) }
    ensures lost { replica.new.lost ≡ replica.old.lost }
    ensures unchanged { LeavesFiles S.changes_files D.leaves replica.old.numbered.inner disk.old
        replica.new.numbered.inner disk.new }
{
    let place = pending.answers.len();
    match replica.numbered.inner.answer(disk, line, pending) {
        Ok(()) => replica.running.take_in(&pending.answers[place..]),
        Err(AllocError) => Err(AllocError),
    }
}

/// A line with a key and a number is answered, and the answer is taken into the digest.
pub(crate) fn answer_numbered<S: AnswersLines, D: Disk>(
    replica: &mut Replica<S>,
    disk: &mut D,
    tag: Tag,
    rest: &[u8],
    pending: &mut Pending,
) -> Result<(), AllocError>
    requires { S.is_over replica.old.numbered.inner ≡ false }
    ensures ok { OnOk result ((said : List ℕ)
        × (noted : List ℕ)
        × IsTakenIn (λ a b. IsTagTaken S.is_answered (did_at rest.now) tag a (D.holds disk.old)
        rest.now said noted b (D.holds disk.new)) said replica.old replica.new
        × IsAdded pending.old pending.new said noted) }
    ensures err { OnErr result (IsTriedInside S.is_answered D.holds replica.old.numbered.inner
        disk.old rest.now replica.new.numbered.inner disk.new) }
    ensures lost { replica.new.lost ≡ replica.old.lost }
    ensures unchanged { LeavesFiles S.changes_files D.leaves replica.old.numbered.inner disk.old
        replica.new.numbered.inner disk.new }
{
    let place = pending.answers.len();
    match answer_tagged(&mut replica.numbered, disk, tag, rest, pending) {
        Ok(()) => replica.running.take_in(&pending.answers[place..]),
        Err(AllocError) => Err(AllocError),
    }
}

/// Answers with the digest of all that was answered up to this place, and notes it.
pub(crate) fn tell_place<S>(
    replica: &mut Replica<S>,
    place: u64,
    pending: &mut Pending,
) -> Result<(), AllocError>
    ensures ok { OnOk result (IsSetAt place (next_of replica.old.running.since)
        (place_line place (next_of replica.old.running.since)) replica.new.running pending.old
        pending.new) }
    ensures same { replica.new.numbered ≡ replica.old.numbered }
    ensures lost { replica.new.lost ≡ replica.old.lost }
{
    let digest = replica.running.next();
    match replica.running.set(place, &digest, &mut pending.notes) {
        Ok(()) => put_place(&mut pending.answers, place, &digest),
        Err(AllocError) => Err(AllocError),
    }
}

/// The digest at this place is this one, which is noted. Nothing is answered.
pub(crate) fn set_place<S>(
    replica: &mut Replica<S>,
    place: u64,
    digest: &[u8],
    pending: &mut Pending,
) -> Result<(), AllocError>
    ensures ok { OnOk result
        (IsSetAt place digest.now [] replica.new.running pending.old pending.new) }
    ensures same { replica.new.numbered ≡ replica.old.numbered }
    ensures lost { replica.new.lost ≡ replica.old.lost }
{
    replica.running.set(place, digest, &mut pending.notes)
}

/// Adds the remarks of the replica's own lines.
pub(crate) fn note_own<S>(replica: &Replica<S>, text: &mut Vec<u8>) -> Result<(), AllocError>
    ensures { OnOk result (text.new.items
        ≡ text.old.items ++ remarks_of (own_lines replica.now)) }
{
    match replica.numbered.keys.note(text) {
        Ok(()) => replica.running.note(text),
        Err(AllocError) => Err(AllocError),
    }
}

impl<S> Replica<S> {
    /// A replica of this service, with no key, before the first place.
    pub fn new(alloc: Global, inner: S) -> Replica<S>
        ensures inner { result.numbered.inner ≡ inner }
        ensures keys { result.numbered.keys ≡ [] }
        ensures running { result.running ≡ at_place 0 [] }
        ensures whole { result.lost ≡ false }
    {
        Replica {
            numbered: Numbered {
                inner,
                keys: Keys::new(alloc),
            },
            running: Running::new(alloc),
            lost: false,
        }
    }

    /// The service inside.
    pub fn inner(&self) -> &S
        ensures { result.now ≡ self.now.numbered.inner }
    {
        &self.numbered.inner
    }
}
