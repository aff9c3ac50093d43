//! Why a file is refused.

ghost use Rattle.std.specs.Prelude.{◌≡◌};
ghost use Rattle.judged_files.specs.Causes.{wrong_text};

use name_check::Wrong;
use segment_files::SegmentError;

/// What is wrong with a line.
#[derive(Clone, Copy, Debug, PartialEq, Eq)]
pub enum Cause {
    /// It begins as a remark about names, and is none.
    Misspelled,
    /// The rings with which the file begins are not as the file before left them.
    OtherRings,
    /// The file begins with fewer rings than there are fixed locks.
    FewRings,
    /// Two fixed locks have one name.
    Twice,
    /// What it says is wrong.
    Wrong(Wrong),
}

/// Why a file is refused.
#[derive(Clone, Copy, Debug, PartialEq, Eq)]
pub enum JudgeError {
    /// The line of this number, from 1.
    Line(u64, Cause),
    /// The block of a ring with which the file begins is not that of a lock, at the place after this many events.
    NoHold { ring: u64, at: u64 },
    /// The beginning of the file is that of no segment.
    Segment(SegmentError),
    OutOfMemory,
}

/// What is printed of what a line says.
fn wrong_text(wrong: Wrong) -> &'static str
    ensures { result.now ≡ wrong_text wrong }
{
    match wrong {
        Wrong::NoRing => "there is no such ring",
        Wrong::NoTop => "the number of all grants is missing",
        Wrong::WrongTop => "the number of all grants is another one",
        Wrong::SecondTop => "the number of all grants comes twice",
        Wrong::NotRestated => "the binding of a held ring is missing",
        Wrong::OtherBinding => "the binding is another one",
        Wrong::FixedRing => "the ring is that of a fixed lock",
        Wrong::HeldRing => "the ring is held",
        Wrong::FixedName => "the name is that of a fixed lock",
        Wrong::BoundTwice => "the name is bound to another ring",
        Wrong::WrongBefore => "the ring had another number of grants",
        Wrong::WrongFloor => "all rings had another number of grants",
        Wrong::NoGrant => "a binding has no grant",
        Wrong::GrantedTwice => "the lock is held",
        Wrong::NoName => "the ring has no name",
        Wrong::NotHeld => "the lock is not held",
        Wrong::NotEnded => "the hold has not ended",
        Wrong::NotFreed => "the hold before ended, and its ring keeps its name",
        Wrong::FewerRings => "there are fewer rings",
        Wrong::Full => "no more grants can be counted",
    }
}

impl Cause {
    ghost use Rattle.std.specs.Prelude.{◌≡◌};
    ghost use Rattle.judged_files.specs.Causes.{cause_text};

    /// What is printed of it.
    pub fn text(self) -> &'static str
        ensures { result.now ≡ cause_text self }
    {
        match self {
            Cause::Misspelled => "misspelled",
            Cause::OtherRings => "the rings are not as they were left",
            Cause::FewRings => "there are fewer rings than fixed locks",
            Cause::Twice => "two fixed locks have one name",
            Cause::Wrong(wrong) => wrong_text(wrong),
        }
    }
}
