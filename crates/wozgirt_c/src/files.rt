//! The file of a ring's segment, its journal, and the next segment, for C.

ghost use Rattle.std.specs.Prelude.{◌≡◌, ◌≢◌, ℕ, List, true, false, Result};
ghost use Rattle.c_calls.specs.Codes.{closed};
ghost use Rattle.c_calls.specs.Reports.{IsSaveReport};
ghost use Rattle.c_calls.specs.Sealed.{IsFileAnswer, IsLinesAnswer, IsCutReport, kept_after};
ghost use Rattle.c_calls.specs.declared.codes.TextError.{TextError};

use crate::handle::{Handle, opened};
use c_calls::codes::CLOSED;
use c_calls::kept_texts::{begin_journal, cut, take_lines};
use std::alloc::Global;

/// Writes the beginning of the journal of the ring's segment, all of the segment so far, to the front of the caller's bytes, if
/// there is room, and returns its size. From now on a journal is kept. It takes no memory.
#[unsafe(no_mangle)]
pub extern "C" fn wozgirt_open_journal(ring: &mut Handle, out: &mut [u8], size: &mut u64) -> u32
    ensures closed { ring.old.full ≡ false → (result ≡ closed)
        × (ring.new ≡ ring.old)
        × (out.new ≡ out.old)
        × (size.new ≡ size.old) }
    ensures full { ring.new.full ≡ ring.old.full }
    ensures kept { ring.old.full ≡ true
        → result ≡ 0
        → ring.new.value ≡ kept_after ring.old.value }
    ensures same { ring.old.full ≡ true → result ≢ 0 → ring.new.value ≡ ring.old.value }
    ensures reported { ring.old.full ≡ true
        → (answer : Result (List ℕ) TextError)
        × IsFileAnswer ring.old.value answer
        × IsSaveReport answer result out.old out.new size.old size.new }
{
    let Some(kept) = opened(ring) else {
        return CLOSED;
    };
    begin_journal(kept, out, size)
}

/// Writes the lines that the journal does not have to the front of the caller's bytes, if there is room, and returns their size.
/// The journal has them then. It takes no memory.
#[unsafe(no_mangle)]
pub extern "C" fn wozgirt_take_journal(ring: &mut Handle, out: &mut [u8], size: &mut u64) -> u32
    ensures closed { ring.old.full ≡ false → (result ≡ closed)
        × (ring.new ≡ ring.old)
        × (out.new ≡ out.old)
        × (size.new ≡ size.old) }
    ensures full { ring.new.full ≡ ring.old.full }
    ensures kept { ring.old.full ≡ true
        → result ≡ 0
        → ring.new.value ≡ kept_after ring.old.value }
    ensures same { ring.old.full ≡ true → result ≢ 0 → ring.new.value ≡ ring.old.value }
    ensures reported { ring.old.full ≡ true
        → (answer : Result (List ℕ) TextError)
        × IsLinesAnswer ring.old.value answer
        × IsSaveReport answer result out.old out.new size.old size.new }
{
    let Some(kept) = opened(ring) else {
        return CLOSED;
    };
    take_lines(kept, out, size)
}

/// Seals the segment: copies the text of its file to the front of the caller's bytes, if there is room, and returns its size. The
/// ring continues in the next segment, with its numbers. No journal of that is kept.
#[unsafe(no_mangle)]
pub extern "C" fn wozgirt_cut(
    alloc: Global,
    ring: &mut Handle,
    out: &mut [u8],
    size: &mut u64,
) -> u32
    ensures closed { ring.old.full ≡ false → (result ≡ closed)
        × (ring.new ≡ ring.old)
        × (out.new ≡ out.old)
        × (size.new ≡ size.old) }
    ensures full { ring.new.full ≡ ring.old.full }
    ensures reported { ring.old.full ≡ true
        → IsCutReport ring.old.value ring.new.value result out.old out.new size.old size.new }
{
    let Some(kept) = opened(ring) else {
        return CLOSED;
    };
    cut(kept, alloc, out, size)
}
