//! Digests of files, in digits.

ghost use Rattle.std.specs.Prelude.{◌≡◌};
ghost use Rattle.hex.specs.Hex.{encode_lower};
ghost use Rattle.segment_files.specs.Spelling.{digest_of, DigestFits};

use hex::encode_to_slice;
use sha2::{Digest, Sha256};

/// How many digits a digest has.
pub const DIGEST_DIGITS: usize = 64;

/// The digits of a digest, 0 to 9 and a to f: for a digest that was made piece by piece.
pub fn digits(digest: &[u8; 32]) -> [u8; DIGEST_DIGITS]
    ensures value { result ≡ encode_lower digest.now }
    ensures fits { DigestFits result }
{
    let mut digits = [0u8; DIGEST_DIGITS];
    encode_to_slice(digest, &mut digits).unwrap();
    digits
}

/// The digest of these bytes: the digits of their SHA-256.
pub fn digest(bytes: &[u8]) -> [u8; DIGEST_DIGITS]
    ensures value { result ≡ digest_of bytes.now }
    ensures fits { DigestFits result }
{
    digits(&Sha256::digest(bytes))
}
