//! The text with which a segment of locks by any name begins.

ghost use Rattle.std.specs.Prelude.{◌≡◌, ◌++◌, ◌∷◌, [], ◌<◌, drop, length, Option, option_map, IfOk, IfErr, OnOk};
ghost use Rattle.segment_files.specs.Spelling.{DigestFits};
ghost use Rattle.lock_names.specs.Table.{bound_of};
ghost use Rattle.name_remarks.specs.Bindings.{binds, text_of};
ghost use Rattle.lock_journal.specs.Due.{HaveNoText};
ghost use Rattle.lock_journal.specs.Segments.{segment_text, HasText};
ghost use Rattle.name_service.specs.NamesText.{bindings_of, names_text};

use line_service::EndFault;
use lock_journal::segment_text;
use lock_names::{Binding, Names};
use name_remarks::{NameRemark, put_name_remark};
use segment_files::DIGEST_DIGITS;
use std::alloc::{AllocError, Global};

/// Adds how a ring is bound, if it has a name.
fn put_binding(text: &mut Vec<u8>, ring: u32, binding: Option<&Binding>) -> Result<(), AllocError>
    ensures { OnOk result (text.new.items ≡ text.old.items ++ text_of
        (binds ring (bindings_of (option_map (λ x. bound_of x.now) binding.entry ∷ [])))) }
{
    match binding {
        Some(binding) => put_name_remark(
            text,
            NameRemark::Bind {
                ring,
                before: binding.before,
                floor: binding.floor,
                name: binding.name.as_bytes(),
            },
        ),
        None => Ok(()),
    }
}

/// Adds how each ring of the pool is bound that has a name.
fn put_bindings(text: &mut Vec<u8>, names: &Names) -> Result<(), AllocError>
    requires { length names.now.names ≡ length names.now.locks }
    ensures { OnOk result (text.new.items ≡ text.old.items ++ text_of
        (binds names.now.fixed (bindings_of (drop names.now.fixed names.now.names)))) }
{
    for ring in names.fixed()..names.count() {
        match put_binding(text, ring, names.binding(ring)) {
            Ok(()) => {}
            Err(error) => return Err(error),
        }
    }
    Ok(())
}

/// Adds the remarks of names with which a segment begins.
fn put_names(text: &mut Vec<u8>, names: &Names) -> Result<(), AllocError>
    ensures { OnOk result (text.new.items ≡ text.old.items ++ names_text names.now) }
{
    names.are_kept(); // says: each ring has a name, or none
    match put_name_remark(
        text,
        NameRemark::Top {
            grants: names.top(),
        },
    ) {
        Ok(()) => put_bindings(text, names),
        Err(error) => Err(error),
    }
}

/// The text with which the segment of this number begins, after a file of this digest.
///
/// # Errors
///
/// `File` where there is no lock; `OutOfMemory`.
pub fn named_text(
    alloc: Global,
    number: u64,
    behind: [u8; DIGEST_DIGITS],
    names: &Names,
) -> Result<Vec<u8>, EndFault>
    requires number { 0 < number }
    requires digits { DigestFits behind }
    ensures text { IfOk result (λ text. text.items
        ≡ segment_text number behind names.now.locks ++ names_text names.now) }
    ensures why { IfErr result (λ e. HaveNoText names.now.locks e) }
    ensures fits { OnOk result (HasText number behind names.now.locks) }
{
    let mut text = match segment_text(alloc, number, behind, names.locks()) {
        Ok(text) => text,
        Err(why) => return Err(why),
    };
    match put_names(&mut text, names) {
        Ok(()) => Ok(text),
        Err(_) => Err(EndFault::OutOfMemory),
    }
}
