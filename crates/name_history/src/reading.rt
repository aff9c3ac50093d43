//! The bindings that the lines of a text say.

ghost use Rattle.std.specs.Prelude.{◌≡◌, ◌∷◌, ◌++◌, [], List, ℕ, IfOk, OnOk};
ghost use Rattle.segment_files.specs.Remarks.{lines_in};
ghost use Rattle.name_remarks.specs.Views.{seen};
ghost use Rattle.name_history.specs.Said.{RingBinding, binding_of, IsSaid, AreSaid};

use crate::bound::Bound;
use name_remarks::{Misspelled, NameRemark, read_name_remark};
use segment_files::split_line;
use std::alloc::{AllocError, Global};

/// The ring that a remark binds, and how, if it binds one.
fn bound_by(alloc: Global, remark: NameRemark<'_>) -> Result<Option<(u32, Bound)>, AllocError>
    ensures { IfOk result (λ found. found ≡ binding_of (seen remark.entry)) }
{
    let NameRemark::Bind {
        ring,
        before,
        floor,
        name,
    } = remark
    else {
        return Ok(None);
    };
    match Bound::new(alloc, before, floor, name) {
        Ok(bound) => Ok(Some((ring, bound))),
        Err(AllocError) => Err(AllocError),
    }
}

/// The ring that a line binds, and how, if it binds one.
#[tactic(auto, using(crate::proofs::Lines::said_by, crate::proofs::Lines::no_remark))]
fn binding_in(alloc: Global, line: &[u8]) -> Result<Option<(u32, Bound)>, AllocError>
    ensures { IfOk result (λ found. IsSaid line.now found) }
{
    match read_name_remark(line) {
        Ok(Some(remark)) => bound_by(alloc, remark),
        Ok(None) => Ok(None),
        Err(Misspelled) => Ok(None),
    }
}

/// Adds the binding that a line says, if it says one.
fn add_line(alloc: Global, line: &[u8], found: &mut Vec<(u32, Bound)>) -> Result<(), AllocError>
    ensures { OnOk result ((said : List RingBinding)
        × AreSaid (line.now ∷ []) said
        × (found.new.items ≡ found.old.items ++ said)) }
{
    if let Some(binding) = binding_in(alloc, line)? {
        found.push(binding)?;
    }
    Ok(())
}

/// Adds the bindings that the lines of a text say to those that were found before. A line that begins as a remark about names and
/// is not one binds no ring.
///
/// # Errors
///
/// Only out of memory. Some may have been added then.
pub fn read_bindings(
    alloc: Global,
    text: &[u8],
    found: &mut Vec<(u32, Bound)>,
) -> Result<(), AllocError>
    ensures { OnOk result ((said : List RingBinding)
        × AreSaid (lines_in text.now) said
        × (found.new.items ≡ found.old.items ++ said)) }
{
    let mut rest = text;
    while !rest.is_empty() {
        let (line, after) = split_line(rest);
        add_line(alloc, line, found)?;
        rest = after;
    }
    Ok(())
}
