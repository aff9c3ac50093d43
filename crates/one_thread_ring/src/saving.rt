//! The saved text of a ring over a till. Writing it takes no memory.
ghost use Rattle.std.specs.Prelude.{IfOk, map};
ghost use Rattle.std.specs.List.{flat_map, AllByRecursion};
ghost use Rattle.text_lines.specs.Writing.{Writes};
ghost use Rattle.saved_history.specs.Versions.{latest_version};
ghost use Rattle.saved_history.specs.Spelling.{survey_line, block_text, text, SurveyFits, BlockFits, Fits};
ghost use Rattle.ring_check.specs.Legal.{IsLegalText};
ghost use Rattle.one_thread_ring.specs.SavedOf.{saved_survey};
ghost use Rattle.one_thread_ring.specs.Texts.{saved_block, saved_alone, IsTextOf};

use crate::blocks::put_block;
use crate::clients::Client;
use crate::events::saved_survey;
use crate::rings::OneThreadRing;
use crate::surveys::SurveyLog;
use ring_book::Till;
use ring_model::Survey;
use saved_history::LATEST_VERSION;
use saved_history::put_lines::{put_done_line, put_first_line, put_survey_line};
use std::alloc::{AllocError, Global};
use std::io::Write;
use text_lines::WriteFault;

/// Writes a line for each of these surveys of a seat.
fn put_survey_lines<W: Write>(out: &mut W, seat: u32, surveys: &[Survey]) -> Result<(), WriteFault>
    ensures written { Writes (W.contents out.old) (W.contents out.new) result
        (flat_map survey_line (map (saved_survey seat) surveys.now)) }
    ensures fits { IfOk result
        (λ _. AllByRecursion SurveyFits (map (saved_survey seat) surveys.now)) }
{
    for survey in surveys {
        match put_survey_line(out, saved_survey(seat, *survey)) {
            Ok(()) => {}
            Err(fault) => return Err(fault),
        }
    }
    Ok(())
}

impl SurveyLog for Client {
    ghost use Rattle.one_thread_ring.specs.Texts.{client_surveys};

    ghost surveys = { client_surveys };

    fn put_surveys<W: Write>(&self, out: &mut W) -> Result<(), WriteFault> {
        put_survey_lines(out, self.number(), self.surveys())
    }
}

/// Writes the block of a ring at its place in a saved text: its place, its start, its history and the surveys that its clients
/// were given.
///
/// # Errors
///
/// `WriteFault` at the first error of the writer: it holds a prefix of the block then.
pub fn put_ring<W: Write>(
    out: &mut W,
    place: u32,
    ring: &OneThreadRing<Till>,
) -> Result<(), WriteFault>
    ensures written { Writes (W.contents out.old) (W.contents out.new) result
        (block_text (saved_block place ring.now)) }
    ensures fits { IfOk result (λ _. BlockFits latest_version (saved_block place ring.now)) }
{
    put_block(out, place, ring.start(), ring.history(), ring.clients())
}

impl OneThreadRing<Till> {
    /// Writes the saved text of the ring as it is now, which is legal. It takes no memory, and does not flush.
    ///
    /// # Errors
    ///
    /// `WriteFault` at the first error of the writer: it holds a prefix of the text then.
    pub fn save<W: Write>(&self, out: &mut W) -> Result<(), WriteFault>
        ensures written { Writes (W.contents out.old) (W.contents out.new) result
            (text (saved_alone self.now)) }
        ensures fits { IfOk result (λ _. Fits (saved_alone self.now)) }
        ensures legal { IsLegalText (saved_alone self.now) }
    {
        self.clients(); // says: it is a one-thread ring
        put_first_line(out, LATEST_VERSION)?;
        put_ring(out, 0, self)?;
        put_done_line(out, 1)?;
        Ok(())
    }

    /// The saved text of the ring as it is now, which is legal.
    ///
    /// # Errors
    ///
    /// Only if memory runs out.
    pub fn text(&self, alloc: Global) -> Result<Vec<u8>, AllocError>
        ensures { IfOk result (λ text. IsTextOf self.now text.items) }
    {
        let mut text = Vec::new(alloc);
        match self.save(&mut text) {
            Ok(()) => Ok(text),
            Err(_) => Err(AllocError),
        }
    }
}
