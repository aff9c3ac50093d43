//! Lines are answered by a replica.

ghost use Rattle.std.specs.Prelude.{◌≡◌, false, OnOk, OnErr};
ghost use Rattle.line_replica.specs.Reading.{heard};
ghost use Rattle.line_replica.specs.Replies.{IsReplied, IsHeard, IsTriedInside, input_of};
ghost use Rattle.line_service.specs.Stands.{IsAnsweredInto, LeavesFiles};

use crate::reading::{place, place_with_digest, tagged};
use crate::replica::{Replica, answer_numbered, answer_plain, set_place, tell_place};
use disks::Disk;
use line_service::{AnswersLines, Pending};
use std::alloc::AllocError;
use text_lines::LINE_LIMIT;

/// Answers a line as one hears it.
fn answer_heard<S: AnswersLines, D: Disk>(
    replica: &mut Replica<S>,
    disk: &mut D,
    line: &[u8],
    pending: &mut Pending,
) -> Result<(), AllocError>
    requires { S.is_over replica.old.numbered.inner ≡ false }
    ensures ok { OnOk result (IsAnsweredInto (IsHeard S.is_answered (heard line.now)) line.now
        replica.old (D.holds disk.old) replica.new (D.holds disk.new) pending.old pending.new) }
    ensures err { OnErr result (IsTriedInside S.is_answered D.holds replica.old.numbered.inner
        disk.old (input_of (heard line.now) line.now) replica.new.numbered.inner disk.new) }
    ensures lost { replica.new.lost ≡ replica.old.lost }
    ensures unchanged { LeavesFiles S.changes_files D.leaves replica.old.numbered.inner disk.old
        replica.new.numbered.inner disk.new }
{
    if line.len() > LINE_LIMIT {
        return answer_plain(replica, disk, line, pending);
    }
    match tagged(line) {
        Some((tag, rest)) => answer_numbered(replica, disk, tag, rest, pending),
        None => match place(line) {
            Some(place) => tell_place(replica, place, pending),
            None => match place_with_digest(line) {
                Some((place, digest)) => set_place(replica, place, digest, pending),
                None => answer_plain(replica, disk, line, pending),
            },
        },
    }
}

impl<S: AnswersLines> AnswersLines for Replica<S> {
    ghost use Rattle.line_replica.specs.Replies.{IsReplied};
    ghost use Rattle.line_replica.specs.Starts.{by_start};

    ghost is_answered = { IsReplied S.is_answered };

    ghost is_over = { λ r. S.is_over r.numbered.inner };

    ghost changes_files = { λ r. S.changes_files r.numbered.inner };

    ghost by_start = { by_start S.is_answered S.by_start };

    fn answer<D: Disk>(
        &mut self,
        disk: &mut D,
        line: &[u8],
        pending: &mut Pending,
    ) -> Result<(), AllocError> {
        if self.lost {
            return Err(AllocError);
        }
        match answer_heard(self, disk, line, pending) {
            Ok(()) => Ok(()),
            Err(AllocError) => {
                self.lost = true;
                Err(AllocError)
            }
        }
    }

    fn is_over(&self) -> bool {
        self.numbered.inner.is_over()
    }
}
