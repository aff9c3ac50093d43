//! Texts that are one number.

ghost use Rattle.std.specs.Prelude.{◌≡◌, ◌≢◌, ℕ, ◌<◌, ◌^◌, decimal, IsNone, IfSome};

use itoa::Buffer;

/// The number that a text spells with no sign and no leading zero, below 2 to the power 32.
pub fn read_decimal(text: &str) -> Option<u32>
    ensures some { IfSome result (λ n. decimal n ≡ text.now) }
    ensures none { IsNone result → (n : ℕ) → n < 2 ^ 32 → decimal n ≢ text.now }
{
    let Ok(number) = text.parse::<u32>() else {
        return None;
    };
    // `parse` takes a plus and leading zeros too: only the number's own spelling is well written.
    let mut buffer = Buffer::new();
    if buffer.format(number) == text {
        Some(number)
    } else {
        None
    }
}
