//! The texts of the ring that C holds.

ghost use Rattle.std.specs.Prelude.{◌≡◌, ◌≢◌, ℕ, ◌<◌, ◌≤◌, ◌-◌, ◌^◌, List, Result};
ghost use Rattle.endless_ring.specs.Files.{IsFileText};
ghost use Rattle.c_calls.specs.Answers.{IsTextAnswer};
ghost use Rattle.c_calls.specs.Codes.{no_memory, too_small};
ghost use Rattle.c_calls.specs.Reports.{IsSaveReport};
ghost use Rattle.c_calls.specs.Sealed.{IsFileAnswer, IsLinesAnswer, IsCutReport, kept_after};
ghost use Rattle.c_calls.specs.declared.codes.TextError.{TextError};

use crate::answers::report_text;
use crate::codes::{HISTORY_FULL, NO_MEMORY, NO_TILL, TOO_SMALL, TextError, text_code};
use crate::kept::{Kept, keep};
use endless_ring::{FileRing, NextError};
use std::alloc::Global;

/// Reports the size of a text, if it has one, and whether there is room for it.
fn tell_size(whole: usize, room: usize, size: &mut u64) -> u32
    ensures none { whole ≡ 2 ^ 64 - 1 → (result ≡ no_memory) × (size.new ≡ size.old) }
    ensures small { whole < 2 ^ 64 - 1 → room < whole
        → (result ≡ too_small) × (size.new ≡ whole) }
    ensures room { whole < 2 ^ 64 - 1 → whole ≤ room → (result ≡ 0) × (size.new ≡ whole) }
{
    if whole == usize::MAX {
        return NO_MEMORY;
    }
    *size = whole as u64;
    if whole > room {
        return TOO_SMALL;
    }
    0
}

/// The saved text of the segment of what C holds, if it is a ring over a till, at the front of the bytes, if there is room. Reports
/// its size.
pub fn save(kept: &Kept, out: &mut [u8], size: &mut u64) -> u32
    ensures { (answer : Result (List ℕ) TextError)
        × IsTextAnswer kept.now answer
        × IsSaveReport answer result out.old out.new size.old size.new }
{
    let ring = match kept {
        Kept::Till(ring) => ring,
        Kept::Idle(_) => return text_code(TextError::NoTill),
    };
    let code = tell_size(ring.save(&mut []), out.len(), size);
    if code == 0 {
        ring.save(out);
    }
    code
}

/// The text of the file of that segment, in the same way.
fn put_file(kept: &Kept, out: &mut [u8], size: &mut u64) -> u32
    ensures { (answer : Result (List ℕ) TextError)
        × IsFileAnswer kept.now answer
        × IsSaveReport answer result out.old out.new size.old size.new }
{
    let ring = match kept {
        Kept::Till(ring) => ring,
        Kept::Idle(_) => return text_code(TextError::NoTill),
    };
    let code = tell_size(ring.put_file(&mut []), out.len(), size);
    if code == 0 {
        ring.put_file(out);
    }
    code
}

/// The lines that the journal of that segment does not have, if one is kept, in the same way.
fn put_lines(kept: &Kept, out: &mut [u8], size: &mut u64) -> u32
    ensures { (answer : Result (List ℕ) TextError)
        × IsLinesAnswer kept.now answer
        × IsSaveReport answer result out.old out.new size.old size.new }
{
    let ring = match kept {
        Kept::Till(ring) => ring,
        Kept::Idle(_) => return text_code(TextError::NoTill),
    };
    if !ring.is_kept() {
        return text_code(TextError::NoJournal);
    }
    let code = tell_size(ring.put_lines(&mut []), out.len(), size);
    if code == 0 {
        ring.put_lines(out);
    }
    code
}

/// Hands out the text of the file of the segment, all of it so far, as the beginning of its journal. From now on a journal is kept.
pub fn begin_journal(kept: &mut Kept, out: &mut [u8], size: &mut u64) -> u32
    ensures kept { result ≡ 0 → kept.new ≡ kept_after kept.old }
    ensures same { result ≢ 0 → kept.new ≡ kept.old }
    ensures reported { (answer : Result (List ℕ) TextError)
        × IsFileAnswer kept.old answer
        × IsSaveReport answer result out.old out.new size.old size.new }
{
    let code = put_file(kept, out, size);
    if code == 0 {
        keep(kept);
    }
    code
}

/// Hands out the lines that the journal of the segment does not have, which it has then.
pub fn take_lines(kept: &mut Kept, out: &mut [u8], size: &mut u64) -> u32
    ensures kept { result ≡ 0 → kept.new ≡ kept_after kept.old }
    ensures same { result ≢ 0 → kept.new ≡ kept.old }
    ensures reported { (answer : Result (List ℕ) TextError)
        × IsLinesAnswer kept.old answer
        × IsSaveReport answer result out.old out.new size.old size.new }
{
    let code = put_lines(kept, out, size);
    if code == 0 {
        keep(kept);
    }
    code
}

/// Seals a segment whose file has this text.
fn seal(ring: &mut FileRing, alloc: Global, text: &[u8], out: &mut [u8], size: &mut u64) -> u32
    requires { IsFileText ring.old text.now }
    ensures { IsCutReport (Kept.Till ring.old) (Kept.Till ring.new) result out.old out.new
        size.old size.new }
{
    if text.len() > out.len() {
        *size = text.len() as u64;
        return TOO_SMALL;
    }
    match ring.next(alloc, text) {
        Ok(next) => {
            *ring = next;
            report_text(text, out, size)
        }
        Err(NextError::Full) => HISTORY_FULL,
        Err(NextError::OutOfMemory) => NO_MEMORY,
    }
}

/// Seals the segment of a ring without end, which continues in the next one.
fn cut_ring(ring: &mut FileRing, alloc: Global, out: &mut [u8], size: &mut u64) -> u32
    ensures { IsCutReport (Kept.Till ring.old) (Kept.Till ring.new) result out.old out.new
        size.old size.new }
{
    match ring.file_text(alloc) {
        Ok(text) => seal(ring, alloc, text.as_slice(), out, size),
        Err(_) => NO_MEMORY,
    }
}

/// Seals the segment: the text of its file is at the front of the bytes, if there is room. Reports its size. The struct that C holds
/// continues in the next segment, with its numbers; no journal of that is kept.
pub fn cut(kept: &mut Kept, alloc: Global, out: &mut [u8], size: &mut u64) -> u32
    ensures { IsCutReport kept.old kept.new result out.old out.new size.old size.new }
{
    match kept {
        Kept::Till(ring) => cut_ring(ring, alloc, out, size),
        Kept::Idle(_) => NO_TILL,
    }
}
