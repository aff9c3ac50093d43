//! The sizes of rings in a text.

ghost use Rattle.std.specs.Prelude.{◌≡◌, ◌≢◌, ℕ, ◌<◌, ◌^◌, decimal, codes, Option, Some, None, List, ◌∷◌, MatchOption};
ghost use Rattle.std.specs.Option.{option_map};
ghost use Rattle.folder_of_locks.specs.Lists.{IsSizeText};
ghost use Rattle.folder_of_locks.specs.ListSteps.{IsMark, IsCut, IsAfterName};

use text_lines::read_decimal;

/// How many machines the ring of a lock has, and how many values each of them can hold, if a list does not say it.
const USUAL_SIZE: u32 = 8;

/// The two numbers that texts spell.
fn read_both(n: &str, k: &str) -> Option<(u32, u32)>
    ensures { MatchOption result
        ((n' k' : ℕ) → n' < 2 ^ 32 → k' < 2 ^ 32 → decimal n' ≡ n.now → decimal k' ≢ k.now)
        (λ x. (decimal x.0 ≡ n.now) × (decimal x.1 ≡ k.now)) }
{
    let Some(n) = read_decimal(n) else {
        return None;
    };
    match read_decimal(k) {
        Some(k) => Some((n, k)),
        None => None,
    }
}

/// What comes before the first mark, and after it, if there is one.
pub(crate) fn cut(text: &str, mark: char) -> (&str, Option<&str>)
    requires { IsMark mark }
    ensures { IsCut mark text.now result.0.now (option_map (λ t. t.now) result.1) }
{
    match text.split_once(mark) {
        Some((before, after)) => (before, Some(after)),
        None => (text, None),
    }
}

/// The numbers of machines and values, by what comes after the name and a mark.
pub(crate) fn read_size(after: Option<&str>, mark: char) -> Option<(u32, u32)>
    requires { IsMark mark }
    ensures { MatchOption result
        ((n k : ℕ) → n < 2 ^ 32 → k < 2 ^ 32 → (text : List ℕ)
        → IsAfterName mark (option_map (λ t. t.now) after.entry) text → ¬ IsSizeText mark text n k)
        (λ x. (text : List ℕ) → IsAfterName mark (option_map (λ t. t.now) after.entry) text
        → IsSizeText mark text x.0 x.1) }
{
    let Some(text) = after else {
        return Some((USUAL_SIZE, USUAL_SIZE));
    };
    let (n, k) = cut(text, mark);
    match k {
        Some(k) => read_both(n, k),
        None => match read_decimal(n) {
            Some(n) => Some((n, n)),
            None => None,
        },
    }
}
