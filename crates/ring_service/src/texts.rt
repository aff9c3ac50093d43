//! The text with which the file of a segment begins.

ghost use Rattle.std.specs.Prelude.{◌≡◌, ◌≤◌, ◌<◌, ◌^◌, ◌++◌, length, IfOk, IfErr};
ghost use Rattle.text_lines.specs.Writing.{Writes};
ghost use Rattle.journal.specs.Spelling.{journal_head};
ghost use Rattle.segment_files.specs.Spelling.{head_of, head_text, DigestFits};
ghost use Rattle.ring_service.specs.Saved.{content_of};
ghost use Rattle.ring_service.specs.Texts.{segment_text, HaveNoText};

use crate::saving::write_rings;
use crate::served::Served;
use journal::put_first_line;
use line_service::EndFault;
use segment_files::{DIGEST_DIGITS, SegmentHead, put_head};
use std::alloc::Global;
use std::io::Write;
use text_lines::WriteFault;

/// Writes the beginning of a journal of these rings: its first line, and their saved text.
///
/// # Errors
///
/// That of the writer; it then holds a proper prefix of the text after what it held.
pub fn put_beginning<W: Write>(out: &mut W, served: &Served) -> Result<(), WriteFault>
    requires some { 1 ≤ length served.now }
    requires most { length served.now < 2 ^ 32 }
    ensures { Writes (W.contents out.old) (W.contents out.new) result
        (journal_head (content_of served.now)) }
{
    match put_first_line(out) {
        Ok(()) => write_rings(out, served),
        Err(fault) => Err(fault),
    }
}

/// Writes the beginning of a segment of these rings.
#[tactic(auto, using(text_lines::proofs::Writing::writes_then))]
fn put_segment<W: Write>(out: &mut W, head: &SegmentHead, served: &Served) -> Result<(), WriteFault>
    requires number { 0 < head.now.number }
    requires digits { DigestFits head.now.behind }
    requires heads { 0 < length head.now.bases.items }
    requires most_heads { length head.now.bases.items < 2 ^ 32 }
    requires some { 1 ≤ length served.now }
    requires most { length served.now < 2 ^ 32 }
    ensures { Writes (W.contents out.old) (W.contents out.new) result
        (head_text (head_of head.now) ++ journal_head (content_of served.now)) }
{
    match put_head(out, head) {
        Ok(()) => put_beginning(out, served),
        Err(fault) => Err(fault),
    }
}

/// The text with which the segment of this number begins, after a file of this digest.
///
/// # Errors
///
/// `OutOfMemory`, and `File` if there is no ring or too many.
pub(crate) fn segment_text(
    alloc: Global,
    number: u64,
    behind: [u8; DIGEST_DIGITS],
    served: &Served,
) -> Result<Vec<u8>, EndFault>
    requires number { 0 < number }
    requires digits { DigestFits behind }
    ensures text { IfOk result (λ text. text.items ≡ segment_text number behind served.now) }
    ensures why { IfErr result (λ e. HaveNoText served.now e) }
{
    let count = served.count();
    if count == 0 || count > u32::MAX as usize {
        return Err(EndFault::File);
    }
    let Ok(bases) = served.bases(alloc) else {
        return Err(EndFault::OutOfMemory);
    };
    let head = SegmentHead {
        number,
        behind,
        bases,
    };
    let mut text = Vec::new(alloc);
    match put_segment(&mut text, &head, served) {
        Ok(()) => Ok(text),
        Err(_) => Err(EndFault::OutOfMemory),
    }
}
