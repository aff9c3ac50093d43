//! The permits of those who write the lines.

ghost use Rattle.std.specs.Prelude.{◌≡◌, IfOk, string_bytes};
ghost use Rattle.std.specs.List.{list_all};
ghost use Rattle.ring_service.specs.Permits.{is_plain_byte, is_plain, file_in};

use std::alloc::{AllocError, Global};

/// What a line may do beside calling the rings, of which nothing is permitted by default; and what becomes of one for which memory
/// is short.
#[derive(Clone, Copy)]
pub struct Permits<'n> {
    /// Whether it may write a value into a machine, as a fault would.
    pub faults: bool,
    /// The folder that it may save all rings in, if there is one.
    pub saves: Option<&'n str>,
    /// The file that the rings were read from, if there is one: no save replaces it.
    pub history: Option<&'n str>,
    /// Whether no line is refused since memory is short, and none is answered while all are refused. Such a line is out of
    /// memory, and nothing has changed.
    pub strict: bool,
}

/// An ASCII letter or digit, `.`, `_` or `-`.
fn is_plain_byte(byte: u8) -> bool
    ensures { result ≡ is_plain_byte byte }
{
    byte >= b'a' && byte <= b'z'
        || byte >= b'A' && byte <= b'Z'
        || byte >= b'0' && byte <= b'9'
        || byte == b'.'
        || byte == b'_'
        || byte == b'-'
}

/// Whether all of these bytes may be in a plain name.
fn are_plain(bytes: &[u8]) -> bool
    ensures { result ≡ list_all is_plain_byte bytes.now }
{
    bytes.iter().all(|byte| is_plain_byte(*byte))
}

/// Whether a name is plain: it leads to a file of the folder itself, and to none that is hidden.
pub(crate) fn is_plain(name: &[u8]) -> bool
    ensures { result ≡ is_plain name.now }
{
    match name {
        [] => false,
        [b'.', ..] => false,
        [_, ..] => are_plain(name),
    }
}

/// The name of the file of this name in a folder.
pub(crate) fn file_in(alloc: Global, folder: &str, name: &str) -> Result<String, AllocError>
    ensures { IfOk result (λ file. string_bytes file ≡ file_in folder.now name.now) }
{
    let mut file = String::new(alloc);
    file.push_str(folder)?;
    file.push_str("/")?;
    file.push_str(name)?;
    Ok(file)
}
