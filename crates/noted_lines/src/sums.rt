//! The sum of a note: FNV-1a of 32 bits.

ghost use Rattle.std.specs.Prelude.{◌≡◌, ◌++◌};
ghost use Rattle.noted_lines.specs.Sums.{with_byte, with_bytes, sum_of};

/// The number from which a sum begins.
const BASIS: u32 = 2166136261;

/// The number by which a sum is multiplied at each byte.
const PRIME: u32 = 16777619;

/// The sum with a byte more.
#[inline(always)]
#[tactic(auto, unfolding(crate::specs::Sums::with_byte))]
fn with_byte(sum: u32, byte: u8) -> u32
    ensures { result ≡ with_byte sum byte }
{
    (sum ^ byte as u32).wrapping_mul(PRIME)
}

/// The sum with these bytes more.
#[inline(always)]
#[tactic(auto, unfolding(crate::specs::Sums::with_bytes))]
fn with_bytes(sum: u32, bytes: &[u8]) -> u32
    ensures { result ≡ with_bytes sum bytes.now }
{
    bytes.iter().fold(sum, |sum, byte| with_byte(sum, *byte))
}

/// The sum of some bytes.
#[tactic(auto, unfolding(crate::specs::Sums::sum_of))]
pub fn sum(bytes: &[u8]) -> u32
    ensures { result ≡ sum_of bytes.now }
{
    with_bytes(BASIS, bytes)
}

/// The sum of two texts, one after the other.
#[tactic(auto, using(crate::proofs::Summed::sum_of_both))]
pub(crate) fn sum_of_both(front: &[u8], line: &[u8]) -> u32
    ensures { result ≡ sum_of (front.now ++ line.now) }
{
    with_bytes(sum(front), line)
}
