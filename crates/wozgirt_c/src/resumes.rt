//! How a ring of a saved text is opened for C: the text is checked first.

ghost use Rattle.std.specs.Prelude.{◌≡◌, ◌≢◌, true, false};
ghost use Rattle.c_calls.specs.Codes.{still_open};
ghost use Rattle.c_calls.specs.Resumed.{IsResumed, IsSavedAnswer};

use crate::handle::{Handle, is_closed, put};
use c_calls::answers::Sums;
use c_calls::codes::STILL_OPEN;
use c_calls::kept::first_file;
use c_calls::resumes::resume_text;
use std::alloc::Global;

/// Opens a ring over a till that resumes the one at this place of a saved text: 0, or why it was not, and the
/// struct is as it was then. The sums are those of `wozgirt_check`.
#[unsafe(no_mangle)]
pub extern "C" fn wozgirt_open_saved(
    alloc: Global,
    ring: &mut Handle,
    bytes: &[u8],
    place: u32,
    seats: u32,
    out: &mut Sums,
) -> u32
    ensures held { ring.old.full ≡ true → (result ≡ still_open) × (out.new ≡ out.old) }
    ensures ok { result ≡ 0
        → (ring.new.full ≡ true) × IsResumed bytes.now place seats ring.new.value }
    ensures checked { ring.old.full ≡ false
        → IsSavedAnswer bytes.now place seats result out.new }
    ensures same { result ≢ 0 → ring.new ≡ ring.old }
{
    if !is_closed(ring) {
        return STILL_OPEN;
    }
    match resume_text(alloc, bytes, place, seats, out) {
        Ok(opened) => put(ring, alloc, first_file(alloc, opened)),
        Err(code) => code,
    }
}
