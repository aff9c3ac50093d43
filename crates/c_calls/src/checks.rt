//! The separate checker for a program in another language.

ghost use Rattle.std.specs.Prelude.{◌≡◌, ◌≢◌, Ok, IfOk, IfErr};
ghost use Rattle.saved_history.specs.Content.{content};
ghost use Rattle.saved_history.specs.Meaning.{IsRightRead};
ghost use Rattle.ring_check.specs.Meaning.{IsRightText};
ghost use Rattle.c_calls.specs.Codes.{code_of};
ghost use Rattle.c_calls.specs.Reports.{IsVerdict};

use crate::answers::{Sums, line_of, no_sums, report_check};
use crate::codes::read_code;
use ring_check::check_saved;
use saved_history::{Saved, read_saved};
use std::alloc::Global;

/// The value that the bytes are the saved text of, if that is legal, and its sums; or the code of why it is not, with the
/// first bad line.
pub(crate) fn legal_text(alloc: Global, bytes: &[u8], out: &mut Sums) -> Result<Saved, u32>
    ensures verdict { IsVerdict bytes.now (code_of result) out.new }
    ensures read { IfOk result (λ saved. IsRightRead bytes.now (Ok saved)) }
    ensures right { IfOk result (λ saved. IsRightText (content saved)) }
    ensures refused { IfErr result (λ code. code ≢ 0) }
{
    match read_saved(alloc, bytes) {
        Ok(saved) => match report_check(check_saved(alloc, &saved), out) {
            0 => Ok(saved),
            code => Err(code),
        },
        Err(error) => {
            *out = no_sums(line_of(error));
            Err(read_code(error))
        }
    }
}

/// The verdict on the bytes, as a code and a struct.
pub fn check_text(alloc: Global, bytes: &[u8], out: &mut Sums) -> u32
    ensures { IsVerdict bytes.now result out.new }
{
    match legal_text(alloc, bytes, out) {
        Ok(_) => 0,
        Err(code) => code,
    }
}
