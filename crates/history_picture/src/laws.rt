//! The columns that the rectangles of a picture cover.

ghost use Rattle.history_picture.specs.Stretches.{StretchesCover};

/// Of n columns, one is in some stretch exactly where the test holds by which the stretches are made.
#[tactic(auto, using(crate::proofs::Runs::stretches_cover))]
pub fn stretches_cover()
    ensures { StretchesCover }
{}
