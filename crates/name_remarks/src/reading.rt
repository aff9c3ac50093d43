//! Reads remarks about names. It takes no memory.

ghost use Rattle.std.specs.Prelude.{◌++◌, codes};
ghost use Rattle.text_lines.specs.Reading.{end_at, whole_at};
ghost use Rattle.text_lines.specs.Exact.{Returns};
ghost use Rattle.name_remarks.specs.Readers.{small_at, ring_at, bind_at, free_at, top_at};
ghost use Rattle.name_remarks.specs.Views.{seen, heard, IsHeardAs};

use crate::remarks::{Misspelled, NameRemark};
use lock_protocol::lock_name;
use text_lines::{Fault, fixed_word, number};

/// A number of 64 bits, and the bytes after the byte that ends it.
#[tactic(auto, unfolding(crate::specs::Readers::small_at))]
fn small_number(bytes: &[u8], stop: u8) -> Result<(u64, &[u8]), Fault>
    ensures { Returns (λ x. (x.0, x.1.now)) result (small_at stop bytes.now) }
{
    let (number, rest) = number(bytes, stop)?;
    let Some(number) = number else {
        return Err(Fault::Bad(rest.len()));
    };
    Ok((number, rest))
}

/// The number of a ring, of 32 bits, and the bytes after the byte that ends it.
#[tactic(auto, unfolding(crate::specs::Readers::ring_at))]
fn ring_number(bytes: &[u8], stop: u8) -> Result<(u32, &[u8]), Fault>
    ensures { Returns (λ x. (x.0, x.1.now)) result (ring_at stop bytes.now) }
{
    let (ring, rest) = small_number(bytes, stop)?;
    if ring > u32::MAX as u64 {
        return Err(Fault::Bad(rest.len()));
    }
    Ok((ring as u32, rest))
}

/// There is nothing more.
fn ended(rest: &[u8]) -> Result<(), Fault>
    ensures { Returns (λ u. u) result (end_at rest.now) }
{
    match rest {
        [] => Ok(()),
        [_, ..] => Err(Fault::Bad(rest.len())),
    }
}

/// What comes after `# name `.
#[tactic(auto, unfolding(crate::specs::Readers::bind_at, text_lines::specs::Reading::whole_at))]
fn bind(bytes: &[u8]) -> Result<NameRemark<'_>, Fault>
    ensures { Returns (λ r. seen r) result (whole_at bind_at bytes.now) }
{
    let (ring, rest) = ring_number(bytes, b' ')?;
    let (before, rest) = small_number(rest, b' ')?;
    let (floor, rest) = small_number(rest, b' ')?;
    let (name, rest) = lock_name(rest, b'\n')?;
    ended(rest)?;
    Ok(NameRemark::Bind {
        ring,
        before,
        floor,
        name,
    })
}

/// What comes after `# free `.
#[tactic(auto, unfolding(crate::specs::Readers::free_at, text_lines::specs::Reading::whole_at))]
fn free(bytes: &[u8]) -> Result<NameRemark<'_>, Fault>
    ensures { Returns (λ r. seen r) result (whole_at free_at bytes.now) }
{
    let (ring, rest) = ring_number(bytes, b'\n')?;
    ended(rest)?;
    Ok(NameRemark::Free { ring })
}

/// What comes after `# floor `.
#[tactic(auto, unfolding(crate::specs::Readers::top_at, text_lines::specs::Reading::whole_at))]
fn top(bytes: &[u8]) -> Result<NameRemark<'_>, Fault>
    ensures { Returns (λ r. seen r) result (whole_at top_at bytes.now) }
{
    let (grants, rest) = small_number(bytes, b'\n')?;
    ended(rest)?;
    Ok(NameRemark::Top { grants })
}

/// The line of which this comes after `# name `.
fn bind_line(rest: &[u8]) -> Result<Option<NameRemark<'_>>, Misspelled>
    ensures { IsHeardAs (codes "# name " ++ rest.now) (heard result) }
{
    match bind(rest) {
        Ok(remark) => Ok(Some(remark)),
        Err(_) => Err(Misspelled),
    }
}

/// The line of which this comes after `# free `.
fn free_line(rest: &[u8]) -> Result<Option<NameRemark<'_>>, Misspelled>
    ensures { IsHeardAs (codes "# free " ++ rest.now) (heard result) }
{
    match free(rest) {
        Ok(remark) => Ok(Some(remark)),
        Err(_) => Err(Misspelled),
    }
}

/// The line of which this comes after `# floor `.
fn top_line(rest: &[u8]) -> Result<Option<NameRemark<'_>>, Misspelled>
    ensures { IsHeardAs (codes "# floor " ++ rest.now) (heard result) }
{
    match top(rest) {
        Ok(remark) => Ok(Some(remark)),
        Err(_) => Err(Misspelled),
    }
}

/// What a line, which has its LF, says of names; `None` if it does not begin as a remark.
///
/// # Errors
///
/// `Misspelled` if the line begins as such a remark, and is none.
pub fn read_name_remark(line: &[u8]) -> Result<Option<NameRemark<'_>>, Misspelled>
    ensures { IsHeardAs line.now (heard result) }
{
    if let Ok(rest) = fixed_word(line, b"# name ") {
        return bind_line(rest);
    }
    if let Ok(rest) = fixed_word(line, b"# free ") {
        return free_line(rest);
    }
    match fixed_word(line, b"# floor ") {
        Ok(rest) => top_line(rest),
        Err(_) => Ok(None),
    }
}
