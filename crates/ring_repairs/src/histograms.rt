//! How many trials had each number, and what follows from that.
ghost use Rattle.std.specs.Prelude.{◌≡◌, ◌+◌, ◌*◌, ◌/◌, ◌<◌, ◌≤◌, ◌∷◌, [], MatchOption, IfOk, length, slice_index, slice_set};
ghost use Rattle.ring_repairs.specs.Limits.{trial_limit, number_limit};
ghost use Rattle.ring_repairs.specs.Histograms.{counted, summed, IsEmpty, IsLeast, IsGreatest, IsQuantile};
ghost use Rattle.ring_repairs.specs.Parts.{IsJoined};

use std::alloc::{AllocError, Global};
use std::marker::Model;

/// The least number that was counted.
fn first_counted(counts: &[u64]) -> Option<u64>
    ensures { MatchOption result (counted counts.now ≡ 0) (IsLeast counts.now) }
{
    for number in 0..counts.len() {
        if counts[number] > 0 {
            return Some(number as u64);
        }
    }
    None
}

/// The greatest number that was counted.
fn last_counted(counts: &[u64]) -> Option<u64>
    ensures { MatchOption result (counted counts.now ≡ 0) (IsGreatest counts.now) }
{
    for above in 0..counts.len() {
        let number = counts.len() - 1 - above;
        if counts[number] > 0 {
            return Some(number as u64);
        }
    }
    None
}

/// The sum of the numbers that were counted.
fn summed(counts: &[u64]) -> u64
    requires total { counted counts.now ≤ trial_limit }
    requires numbers { length counts.now ≤ number_limit }
    ensures { result ≡ summed counts.now }
{
    let mut sum: u64 = 0;
    for number in 0..counts.len() {
        sum += number as u64 * counts[number];
    }
    sum
}

/// The least number such that at least `part` of `whole` of the trials had it or less.
fn quantile_of(counts: &[u64], total: u64, part: u64, whole: u64) -> Option<u64>
    requires total { total ≡ counted counts.now }
    requires most { total ≤ trial_limit }
    requires part { part ≤ whole }
    requires some { 1 ≤ part }
    requires whole { whole ≤ 1000 }
    ensures { MatchOption result (counted counts.now ≡ 0) (IsQuantile counts.now part whole) }
{
    if total == 0 {
        return None;
    }
    let mut below: u64 = 0;
    for number in 0..counts.len() {
        below += counts[number];
        if part * total <= whole * below {
            return Some(number as u64);
        }
    }
    None
}

/// Adds to each entry the one of `more` at its place.
fn add_each(counts: &mut [u64], more: &[u64])
    requires length { length more.now ≡ length counts.old }
    requires room { counted counts.old + counted more.now ≤ trial_limit }
    ensures joined { IsJoined counts.old more.now counts.new }
    ensures counted { counted counts.new ≡ counted counts.old + counted more.now }
{
    for number in 0..counts.len() {
        counts[number] += more[number];
    }
}

/// How many trials had each number, from 0 on. It has an entry for each number that a trial can have, so that its memory does not
/// grow with the trials. Contracts see the list of its entries.
#[derive(Drop)]
pub struct Histogram {
    counts: Vec<u64>,
    total: u64,
}

impl Model for Histogram {
    ghost use Rattle.std.specs.Prelude.{◌≡◌, List, ℕ};
    ghost use Rattle.ring_repairs.specs.Histograms.{IsHistogram, counted};

    ghost Value = { List ℕ };

    ghost view = { λ h. h.counts.items };

    ghost invariant = { λ h. IsHistogram h.counts.items × (h.total ≡ counted h.counts.items) };
}

impl Histogram {
    /// A histogram of the numbers below `numbers`, in which nothing is counted.
    pub(crate) fn new(alloc: Global, numbers: u32) -> Result<Histogram, AllocError>
        requires { numbers ≤ number_limit }
        ensures { IfOk result (λ h. IsEmpty numbers h) }
    {
        let counts = vec![in alloc; 0; numbers as usize]?;
        Ok(Histogram { counts, total: 0 })
    }

    /// A histogram of the numbers 0 and 1, each with how many trials had it.
    pub(crate) fn of_two(alloc: Global, zeros: u64, ones: u64) -> Result<Histogram, AllocError>
        requires { zeros + ones ≤ trial_limit }
        ensures { IfOk result (λ h. h ≡ zeros ∷ ones ∷ []) }
    {
        let counts = Vec::from_slice(alloc, &[zeros, ones])?;
        Ok(Histogram {
            counts,
            total: zeros + ones,
        })
    }

    /// Counts one trial with this number.
    pub(crate) fn add(&mut self, number: usize)
        requires within { number < length self.old }
        requires room { counted self.old < trial_limit }
        ensures { self.new ≡ slice_set self.old number (slice_index self.old number + 1) }
    {
        self.counts[number] += 1;
        self.total += 1;
    }

    /// Counts the trials of another one of the same length too.
    pub(crate) fn join(&mut self, other: &Histogram)
        requires length { length other.now ≡ length self.old }
        requires room { counted self.old + counted other.now ≤ trial_limit }
        ensures joined { IsJoined self.old other.now self.new }
        ensures counted { counted self.new ≡ counted self.old + counted other.now }
    {
        add_each(self.counts.as_mut_slice(), other.counts.as_slice());
        self.total += other.total;
    }

    /// How many trials had each number: entry v is for the number v.
    pub fn counts(&self) -> &[u64]
        ensures { result.now ≡ self.now }
    {
        self.counts.as_slice()
    }

    /// How many trials were counted, at most `TRIAL_LIMIT`.
    pub fn total(&self) -> u64
        ensures is { result ≡ counted self.now }
        ensures most { result ≤ trial_limit }
    {
        self.total
    }

    /// The least number that a trial had, if one was counted.
    pub fn least(&self) -> Option<u64>
        ensures { MatchOption result (counted self.now ≡ 0) (IsLeast self.now) }
    {
        first_counted(self.counts.as_slice())
    }

    /// The greatest number that a trial had, if one was counted.
    pub fn greatest(&self) -> Option<u64>
        ensures { MatchOption result (counted self.now ≡ 0) (IsGreatest self.now) }
    {
        last_counted(self.counts.as_slice())
    }

    /// The mean of the numbers in hundredths, rounded down, if a trial was counted.
    pub fn mean_hundredths(&self) -> Option<u64>
        ensures { MatchOption result (counted self.now ≡ 0)
            (λ mean. mean ≡ 100 * summed self.now / counted self.now) }
    {
        if self.total == 0 {
            return None;
        }
        Some(100 * summed(self.counts.as_slice()) / self.total)
    }

    /// The least number such that at least `part` of `whole` of the trials had it or less, if a trial was counted: of 50 of 100 the
    /// median. `part` is 1 to `whole`, and `whole` at most 1,000.
    pub fn quantile(&self, part: u64, whole: u64) -> Option<u64>
        requires some { 1 ≤ part }
        requires part { part ≤ whole }
        requires whole { whole ≤ 1000 }
        ensures { MatchOption result (counted self.now ≡ 0) (IsQuantile self.now part whole) }
    {
        quantile_of(self.counts.as_slice(), self.total, part, whole)
    }
}
