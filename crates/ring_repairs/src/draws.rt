//! Numbers that are drawn from the words of a generator.
ghost use Rattle.std.specs.Prelude.{◌≡◌, ◌<◌};
ghost use Rattle.ring_repairs.specs.Draws.{word, draw, generator, redraw_limit};

use rand_core::utils::NextWord;
use rand_pcg::Lcg64Xsh32;

// How many words are passed over at most for one number.
const REDRAW_LIMIT: u32 = 63;

/// The generator of a trial.
pub fn generator(seed: u64, trial: u64) -> Lcg64Xsh32
    ensures { result ≡ generator seed trial }
{
    Lcg64Xsh32::new(seed, trial)
}

/// The next word.
#[inline(always)]
fn next_word(words: &mut Lcg64Xsh32) -> u32
    ensures { (result, words.new) ≡ word words.old }
{
    words.next_word()
}

/// A number below `below`, each as likely as each other.
#[inline]
pub fn draw(words: &mut Lcg64Xsh32, below: u32) -> u32
    requires { 0 < below }
    ensures drawn { (result, words.new) ≡ draw below words.old }
    ensures below { result < below }
{
    for _ in 0..REDRAW_LIMIT {
        let word = next_word(words);
        let rest = word % below;
        if (word - rest) as u64 + below as u64 <= 1 << 32 {
            return rest;
        }
    }
    next_word(words) % below
}
