//! The surveys that the seats of a ring were given, as a saved text has them.

ghost use Rattle.std.specs.Prelude.{[], ◌∷◌, IfOk, List};
ghost use Rattle.std.specs.List.{flat_map, AllByRecursion};
ghost use Rattle.text_lines.specs.Writing.{Writes};
ghost use Rattle.saved_history.specs.declared.saved.SavedSurvey.{SavedSurvey};
ghost use Rattle.saved_history.specs.Spelling.{survey_line, SurveyFits};
ghost use Rattle.one_thread_ring.specs.SavedOf.{entry_surveys};

use crate::events::saved_survey;
use ring_logs::Log;
use ring_model::Entry;
use saved_history::put_lines::put_survey_line;
use std::io::Write;
use text_lines::WriteFault;

/// The log of a seat, of which a saved text has the surveys.
pub trait SurveyLog {
    ghost surveys: { Self → List SavedSurvey };

    /// Writes a line for each survey, in their order.
    fn put_surveys<W: Write>(&self, out: &mut W) -> Result<(), WriteFault>
        ensures written { Writes (W.contents out.old) (W.contents out.new) result
            (flat_map survey_line (surveys self.now)) }
        ensures fits { IfOk result (λ _. AllByRecursion SurveyFits (surveys self.now)) };
}

/// Writes the line of an entry that is a survey, and nothing for a receipt.
fn put_entry<W: Write>(out: &mut W, seat: u32, entry: Entry) -> Result<(), WriteFault>
    ensures written { Writes (W.contents out.old) (W.contents out.new) result
        (flat_map survey_line (entry_surveys seat (entry ∷ []))) }
    ensures fits { IfOk result (λ _. AllByRecursion SurveyFits (entry_surveys seat (entry ∷ []))) }
{
    match entry {
        Entry::Survey(survey) => put_survey_line(out, saved_survey(seat, survey)),
        Entry::Receipt(_) => Ok(()),
    }
}

/// Writes a line for each survey among a seat's entries.
fn put_entries<W: Write>(out: &mut W, seat: u32, entries: &[Entry]) -> Result<(), WriteFault>
    ensures written { Writes (W.contents out.old) (W.contents out.new) result
        (flat_map survey_line (entry_surveys seat entries.now)) }
    ensures fits { IfOk result (λ _. AllByRecursion SurveyFits (entry_surveys seat entries.now)) }
{
    for entry in entries {
        match put_entry(out, seat, *entry) {
            Ok(()) => {}
            Err(fault) => return Err(fault),
        }
    }
    Ok(())
}

impl SurveyLog for Log {
    ghost use Rattle.one_thread_ring.specs.SavedOf.{log_surveys};

    ghost surveys = { log_surveys };

    fn put_surveys<W: Write>(&self, out: &mut W) -> Result<(), WriteFault> {
        put_entries(out, self.seat, &self.entries)
    }
}

/// Writes the surveys seat by seat.
pub(crate) fn put_logs<W: Write, L: SurveyLog>(out: &mut W, logs: &[L]) -> Result<(), WriteFault>
    ensures written { Writes (W.contents out.old) (W.contents out.new) result
        (flat_map survey_line (flat_map L.surveys logs.now)) }
    ensures fits { IfOk result (λ _. AllByRecursion SurveyFits (flat_map L.surveys logs.now)) }
{
    for log in logs {
        match log.put_surveys(out) {
            Ok(()) => {}
            Err(fault) => return Err(fault),
        }
    }
    Ok(())
}
