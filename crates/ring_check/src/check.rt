//! The check of a whole text.

ghost use Rattle.std.specs.Prelude.{◌+◌, ◌<◌, ◌^◌, length, IfOk};
ghost use Rattle.saved_history.specs.Content.{content};
ghost use Rattle.ring_check.specs.Lines.{lines};
ghost use Rattle.ring_check.specs.Legal.{IsRightCheck};
ghost use Rattle.ring_check.specs.Meaning.{IsRightText};

use crate::answers::{CheckError, Kind, Summary};
use crate::rings::check_rings;
use crate::sums::sums_of;
use saved_history::Saved;
use std::alloc::Global;

/// Checks a saved text: whether each of its rings has one legal history from its start, on one thread over a till
/// with the amount 0, in which the members of a group are a block, whether each survey is that ring's at its place
/// and inside no block, and whether each count is right.
///
/// How large a ring may be goes by the version of the text.
///
/// Answers the sums of a legal text. Of another it answers the first bad line, counted from 1 with the first line
/// of the text, and its first fault in the order of [`Kind`].
/// Memory can run out, and the text is then neither.
///
/// It takes time in proportion to the length of the text, except for the surveys: each ring is replayed for them at most
/// ten times more, and each place that a survey names costs a few passes over the machines.
///
/// That the text has fewer than 2 to the power 64 lines holds of each that was read ([`lines_are_few`](crate::lines_are_few)).
pub fn check_saved(alloc: Global, saved: &Saved) -> Result<Summary, CheckError>
    requires { length (lines (content saved.now)) + 1 < 2 ^ 64 }
    ensures right { IsRightCheck (content saved.now) result }
    ensures meaning { IfOk result (λ sums. IsRightText (content saved.now)) }
{
    let line = check_rings(alloc, saved.version, &saved.rings)?;
    if saved.rings_said as usize != saved.rings.len() {
        return Err(CheckError::Bad {
            line: line + 1,
            kind: Kind::Count,
        });
    }
    Ok(sums_of(&saved.rings, saved.rings_said))
}
