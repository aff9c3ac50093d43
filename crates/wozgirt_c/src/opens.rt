//! How a ring is opened for C.

ghost use Rattle.std.specs.Prelude.{◌≡◌, ◌≢◌, true, false};
ghost use Rattle.c_calls.specs.Codes.{still_open};
ghost use Rattle.wozgirt_c.specs.Opened.{IsOpenedTill, IsOpenedIdle, IsOpenRefused};

use crate::handle::{Handle, is_closed, put};
use c_calls::codes::{STILL_OPEN, open_code};
use c_calls::kept::{Kept, first_file};
use one_thread_ring::OneThreadRing;
use ring_book::{Idle, Till};
use std::alloc::Global;

/// Opens a ring over a till: 0, or why it was not, and the struct is as it was then.
#[unsafe(no_mangle)]
pub extern "C" fn wozgirt_open(
    alloc: Global,
    ring: &mut Handle,
    n: u32,
    k: u32,
    start: &[u32],
    seats: u32,
) -> u32
    ensures held { ring.old.full ≡ true → result ≡ still_open }
    ensures ok { result ≡ 0
        → (ring.new.full ≡ true) × IsOpenedTill n k start.now seats ring.new.value }
    ensures err { ring.old.full ≡ false → result ≢ 0
        → IsOpenRefused (record { n = n; k = k }) start.now seats result }
    ensures same { result ≢ 0 → ring.new ≡ ring.old }
{
    if !is_closed(ring) {
        return STILL_OPEN;
    }
    match OneThreadRing::open(alloc, n, k, start, seats, Till::new()) {
        Ok(opened) => put(ring, alloc, first_file(alloc, opened)),
        Err(error) => open_code(error),
    }
}

/// The same over a resource that does no work, and nothing of it is saved.
#[unsafe(no_mangle)]
pub extern "C" fn wozgirt_open_idle(
    alloc: Global,
    ring: &mut Handle,
    n: u32,
    k: u32,
    start: &[u32],
    seats: u32,
) -> u32
    ensures held { ring.old.full ≡ true → result ≡ still_open }
    ensures ok { result ≡ 0
        → (ring.new.full ≡ true) × IsOpenedIdle n k start.now seats ring.new.value }
    ensures err { ring.old.full ≡ false → result ≢ 0
        → IsOpenRefused (record { n = n; k = k }) start.now seats result }
    ensures same { result ≢ 0 → ring.new ≡ ring.old }
{
    if !is_closed(ring) {
        return STILL_OPEN;
    }
    match OneThreadRing::open(alloc, n, k, start, seats, Idle) {
        Ok(opened) => put(ring, alloc, Kept::Idle(opened)),
        Err(error) => open_code(error),
    }
}
