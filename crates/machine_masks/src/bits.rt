//! The bits of a word.
ghost use Rattle.std.specs.Prelude.{◌≡◌, ◌≢◌, ◌<◌, ℕ, true, count_ones};
ghost use Rattle.ring_model.specs.Numbers.{count_below};
ghost use Rattle.machine_masks.specs.Members.{is_set};

/// The bit that is set and has `place` bits below it that are.
pub(crate) fn nth_bit(word: u64, place: u32) -> u32
    requires { place < count_ones word }
    ensures below { result < 64 }
    ensures set { is_set word result ≡ true }
    ensures place { count_below (is_set word) result ≡ place }
{
    let mut left = word;
    for _ in 0..place {
        left &= left - 1;
    }
    left.trailing_zeros()
}

/// Whether a bit of the word is set.
#[inline]
pub(crate) fn is_set(word: u64, bit: u32) -> bool
    requires { bit < 64 }
    ensures { result ≡ is_set word bit }
{
    (word >> bit) & 1 == 1
}

/// The word with this bit set, or clear.
#[inline]
pub(crate) fn with_bit(word: u64, bit: u32, on: bool) -> u64
    requires { bit < 64 }
    ensures at { is_set result bit ≡ on }
    ensures others { (b : ℕ) → b < 64 → b ≢ bit → is_set result b ≡ is_set word b }
{
    word & !(1 << bit) | u64::from(on) << bit
}
