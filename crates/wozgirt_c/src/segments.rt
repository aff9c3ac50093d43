//! How a ring of the last file of a chain is opened for C.

ghost use Rattle.std.specs.Prelude.{◌≡◌, ◌≢◌, true, false};
ghost use Rattle.c_calls.specs.Codes.{still_open};
ghost use Rattle.c_calls.specs.Sealed.{IsGoneOnBy, IsSegmentAnswer};

use crate::handle::{Handle, is_closed, put};
use c_calls::codes::STILL_OPEN;
use c_calls::kept::Kept;
use c_calls::segments::go_on;
use std::alloc::Global;

/// Opens a ring over a till that resumes where the last file of a chain ended: 0, or why it was not, and the struct is as it was
/// then. A cut end of the file is left out. The line is the first bad one, or 0.
#[unsafe(no_mangle)]
pub extern "C" fn wozgirt_open_segment(
    alloc: Global,
    ring: &mut Handle,
    bytes: &[u8],
    seats: u32,
    line: &mut u64,
) -> u32
    ensures held { ring.old.full ≡ true → (result ≡ still_open) × (line.new ≡ line.old) }
    ensures ok { result ≡ 0
        → (ring.new.full ≡ true) × IsGoneOnBy bytes.now seats ring.new.value }
    ensures checked { ring.old.full ≡ false
        → IsSegmentAnswer bytes.now seats result line.new }
    ensures same { result ≢ 0 → ring.new ≡ ring.old }
{
    if !is_closed(ring) {
        return STILL_OPEN;
    }
    match go_on(alloc, bytes, seats, line) {
        Ok(opened) => put(ring, alloc, Kept::Till(opened)),
        Err(code) => code,
    }
}
