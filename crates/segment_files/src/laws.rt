//! The laws of the files of a chain: each is the contract of a function with an empty body.

ghost use Rattle.segment_files.specs.Chain.{AddedAreChained, OneFile};
ghost use Rattle.segment_files.specs.RemarkLaws.{JournalsAreKept, RemarksAreLeftOut};
ghost use Rattle.segment_files.specs.Files.{FilesTellHistories, LaterFilesTellHistories};

/// The files of a chain record of each ring one history of the one-thread ring.
pub fn files_tell_histories()
    ensures first { FilesTellHistories }
    ensures later { LaterFilesTellHistories }
{}

/// The files that [`Chain::add`](crate::Chain::add) accepts, one after the other, are a chain.
#[tactic(auto, using(crate::proofs::Adding::added_are_chained))]
pub fn added_are_chained()
    ensures { AddedAreChained }
{}

/// Of some bytes there is one head and one history.
#[tactic(auto, using(crate::proofs::OneFiles::one_file))]
pub fn one_file()
    ensures { OneFile }
{}

/// A remark after whole lines changes nothing of what is recovered, and a journal has none.
pub fn remarks_are_left_out()
    ensures left_out { RemarksAreLeftOut }
    ensures kept { JournalsAreKept }
{}
