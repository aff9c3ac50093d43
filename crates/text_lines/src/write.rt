//! Writing, piece by piece, until all is written or the writer fails.

ghost use Rattle.std.specs.Prelude.{◌≡◌};
ghost use Rattle.std.specs.List.{flat_map};
ghost use Rattle.text_lines.specs.Writing.{Writes};

use std::io::Write;

/// The writer failed, or took no byte. Only [`put`] makes one, so each comes from a writer.
#[derive(Clone, Copy, Debug, PartialEq, Eq)]
pub struct WriteFault(());

/// Writes all of the bytes.
///
/// An error of the writer, an interruption too, or a write of 0 bytes ends it, and only these do:
/// a writer that takes fewer bytes than it was given is asked again for the rest. It takes no
/// memory, and does not flush.
///
/// # Errors
///
/// `WriteFault` at the first error or write of 0 bytes. The writer then holds a prefix of the
/// bytes, but not all of them, after what it held.
pub fn put<W: Write>(out: &mut W, bytes: &[u8]) -> Result<(), WriteFault>
    ensures { Writes (W.contents out.old) (W.contents out.new) result bytes.now }
{
    let mut rest = bytes;
    while !rest.is_empty() {
        match out.write(rest) {
            Ok(0) => return Err(WriteFault(())),
            Ok(n) => rest = &rest[n..],
            Err(_) => return Err(WriteFault(())),
        }
    }
    Ok(())
}

/// Writes all of the pieces, one after the other, as [`put`] writes each.
///
/// # Errors
///
/// `WriteFault` at the first error or write of 0 bytes. The writer then holds a prefix of the
/// pieces put together, but not all of it, after what it held.
pub fn put_all<W: Write>(out: &mut W, pieces: &[&[u8]]) -> Result<(), WriteFault>
    ensures { Writes (W.contents out.old) (W.contents out.new) result
        (flat_map (λ p. p.now) pieces.now) }
{
    for piece in pieces {
        match put(out, piece) {
            Ok(()) => {}
            Err(fault) => return Err(fault),
        }
    }
    Ok(())
}
