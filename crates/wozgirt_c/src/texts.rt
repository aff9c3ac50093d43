//! The saved text of a ring that C holds.

ghost use Rattle.std.specs.Prelude.{◌≡◌, ℕ, List, true, false, Result};
ghost use Rattle.c_calls.specs.Answers.{IsTextAnswer};
ghost use Rattle.c_calls.specs.Codes.{closed};
ghost use Rattle.c_calls.specs.Reports.{IsSaveReport};
ghost use Rattle.c_calls.specs.declared.codes.TextError.{TextError};

use crate::handle::{Handle, opened};
use c_calls::codes::CLOSED;
use c_calls::kept_texts::save;

/// Writes the saved text of the ring as it is now to the front of the caller's bytes, if there is room, and returns its size. The
/// ring stays as it was. It takes no memory.
#[unsafe(no_mangle)]
pub extern "C" fn wozgirt_save(ring: &mut Handle, out: &mut [u8], size: &mut u64) -> u32
    ensures closed { ring.old.full ≡ false → (result ≡ closed)
        × (ring.new ≡ ring.old)
        × (out.new ≡ out.old)
        × (size.new ≡ size.old) }
    ensures full { ring.new.full ≡ ring.old.full }
    ensures same { ring.old.full ≡ true → ring.new.value ≡ ring.old.value }
    ensures reported { ring.old.full ≡ true
        → (answer : Result (List ℕ) TextError)
        × IsTextAnswer ring.old.value answer
        × IsSaveReport answer result out.old out.new size.old size.new }
{
    let Some(kept) = opened(ring) else {
        return CLOSED;
    };
    save(kept, out, size)
}
