//! The names of locks, as they are read.

ghost use Rattle.std.specs.Prelude.{◌≡◌, ◌↔◌, IsTrue};
ghost use Rattle.text_lines.specs.Exact.{Returns};
ghost use Rattle.lock_protocol.specs.Names.{is_name_byte, IsName};
ghost use Rattle.lock_protocol.specs.NameReading.{leading, is_length, ended_name, name_at};

use text_lines::Fault;

/// How many bytes a name has at most.
pub const MOST_NAME: usize = 128;

/// Whether a name may have this byte.
fn is_name_byte(byte: u8) -> bool
    ensures { result ≡ is_name_byte byte }
{
    byte.is_ascii_alphanumeric() || byte == b'.' || byte == b'_' || byte == b'-' || byte == b'/'
}

/// How many bytes come first that a name may have.
fn leading(bytes: &[u8]) -> usize
    ensures { result ≡ leading bytes.now }
{
    for (i, byte) in bytes.iter().enumerate() {
        if !is_name_byte(*byte) {
            return i;
        }
    }
    bytes.len()
}

/// Whether a name may have this number of bytes.
fn is_length(length: usize) -> bool
    ensures { result ≡ is_length length }
{
    0 < length && length <= MOST_NAME
}

/// Whether this is the name of a lock: 1 to 128 of the bytes `A-Z a-z 0-9 . _ - /`.
pub fn is_name(name: &[u8]) -> bool
    ensures { IsTrue result ↔ IsName name.now }
{
    is_length(name.len()) && leading(name) == name.len()
}

/// These bytes as a name, if there are not too many and the byte that ends it comes next.
#[inline(always)]
fn ended_name<'b>(stop: u8, name: &'b [u8], rest: &'b [u8]) -> Result<(&'b [u8], &'b [u8]), Fault>
    ensures { Returns (λ x. (x.0.now, x.1.now)) result (ended_name stop name.now rest.now) }
{
    match rest {
        [] => Err(Fault::Short),
        [byte, more @ ..] => {
            if *byte == stop && is_length(name.len()) {
                Ok((name, more))
            } else {
                Err(Fault::Bad(rest.len()))
            }
        }
    }
}

/// Reads a name; returns it with the bytes after the byte that ends it.
///
/// # Errors
///
/// The first fault of the bytes. It takes no memory.
#[tactic(auto, unfolding(crate::specs::NameReading::name_at))]
pub fn lock_name(bytes: &[u8], stop: u8) -> Result<(&[u8], &[u8]), Fault>
    ensures { Returns (λ x. (x.0.now, x.1.now)) result (name_at stop bytes.now) }
{
    let length = leading(bytes);
    let (name, rest) = bytes.split_at(length);
    ended_name(stop, name, rest)
}
