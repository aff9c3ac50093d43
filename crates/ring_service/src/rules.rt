//! The rules by which lines are answered.

ghost use Rattle.std.specs.Prelude.{◌≡◌, Option, IfOk, IfErr};
ghost use Rattle.std.specs.Option.{option_map};
ghost use Rattle.line_service.specs.declared.segmented.EndFault.TheVariants as end;
ghost use Rattle.ring_service.specs.declared.rules.JournalFile.TheVariants as journal_file;
ghost use Rattle.ring_service.specs.Rules.{named_file, file_after, file_rules, segment_rules, next_rules, HasNoNumber};

use crate::answers::Refusal;
use crate::chain_segments::ChainRules;
use crate::permits::Permits;
use line_service::EndFault;

/// The file of a journal.
#[derive(Clone, Copy)]
pub enum JournalFile<'n> {
    /// The one of this name.
    Named(&'n str),
    /// That of the segment of this number in a folder.
    Segment { folder: &'n str, number: u64 },
}

/// The rules by which lines are answered: the file of the journal, if one is kept, and what is permitted; after how many lines a
/// segment is due, if segments end; and the refusal of each line, if all are refused.
#[derive(Clone, Copy)]
pub struct Rules<'n> {
    pub(crate) journal: Option<JournalFile<'n>>,
    pub(crate) permits: Permits<'n>,
    pub(crate) limit: Option<u64>,
    pub(crate) refusing: Option<Refusal>,
}

/// The file of this name, if there is one.
fn named_file(name: Option<&str>) -> Option<JournalFile<'_>>
    ensures { result ≡ named_file name.entry }
{
    match name {
        None => None,
        Some(name) => Some(JournalFile::Named(name)),
    }
}

/// The file of the journal in the next segment, if one is kept.
///
/// # Errors
///
/// `Full`, if no number is left for it.
fn next_file<'n>(journal: Option<JournalFile<'n>>) -> Result<Option<JournalFile<'n>>, EndFault>
    ensures ok { IfOk result (λ next. next ≡ option_map file_after journal.entry) }
    ensures full { IfErr result (λ e. (e ≡ end.Full) × HasNoNumber journal.entry) }
{
    match journal {
        None => Ok(None),
        Some(JournalFile::Named(name)) => Ok(Some(JournalFile::Named(name))),
        Some(JournalFile::Segment { folder, number }) => {
            if number == u64::MAX {
                return Err(EndFault::Full);
            }
            Ok(Some(JournalFile::Segment {
                folder,
                number: number + 1,
            }))
        }
    }
}

impl<'n> Rules<'n> {
    /// With a journal in the file of this name, if one is kept: no segment ends.
    pub(crate) fn in_file(journal: Option<&'n str>, permits: Permits<'n>) -> Rules<'n>
        ensures { result ≡ file_rules journal.entry permits.entry }
    {
        Rules {
            journal: named_file(journal),
            permits,
            limit: None,
            refusing: None,
        }
    }

    /// In the segment of this number, where lines are not refused.
    pub(crate) fn in_segment(rules: ChainRules<'n>, number: u64) -> Rules<'n>
        ensures { result ≡ segment_rules rules.entry number None }
    {
        Rules {
            journal: Some(JournalFile::Segment {
                folder: rules.files.folder,
                number,
            }),
            permits: rules.permits,
            limit: Some(rules.limit),
            refusing: None,
        }
    }

    /// In the next segment, where lines are not refused.
    ///
    /// # Errors
    ///
    /// `Full`, if no number is left for it.
    pub(crate) fn next(self) -> Result<Rules<'n>, EndFault>
        ensures ok { IfOk result (λ next. next ≡ next_rules self.entry) }
        ensures full { IfErr result (λ e. (e ≡ end.Full) × HasNoNumber self.entry.journal) }
    {
        match next_file(self.journal) {
            Ok(journal) => Ok(Rules {
                journal,
                permits: self.permits,
                limit: self.limit,
                refusing: None,
            }),
            Err(why) => Err(why),
        }
    }
}
