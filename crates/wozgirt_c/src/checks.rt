//! The separate checker for C. It holds nothing between two calls, so any threads may call it at once.

ghost use Rattle.std.specs.Prelude.{◌≡◌};
ghost use Rattle.c_calls.specs.Reports.{IsVerdict};

use c_calls::answers::Sums;
use c_calls::checks::check_text;
use std::alloc::Global;

/// Whether the bytes are a legal saved text: 0 and its sums, or why they are not, with the first bad line.
#[unsafe(no_mangle)]
pub extern "C" fn wozgirt_check(alloc: Global, bytes: &[u8], out: &mut Sums) -> u32
    ensures { IsVerdict bytes.now result out.new }
{
    check_text(alloc, bytes, out)
}

/// The library's version: 10,000 times the first number, 100 times the second, and the third.
#[unsafe(no_mangle)]
pub extern "C" fn wozgirt_version() -> u32
    ensures { result ≡ 100 }
{
    100
}
