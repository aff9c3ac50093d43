//! The surveys of all logs, in the order of their places.
ghost use Rattle.std.specs.Prelude.{◌≡◌, ◌++◌, ◌∷◌, [], IfOk, OnOk};
ghost use Rattle.std.specs.List.Sorted.{IsPermutation, IsNonDecreasingBy};
ghost use Rattle.ring_logs.specs.Fronts.{surveys_of};
ghost use Rattle.ring_logs.specs.Gathered.{all_surveys};

use crate::logs::ClientLog;
use ring_model::{Entry, Survey};
use std::alloc::{AllocError, Global};

/// How many entries the logs have.
fn entry_count(logs: &[ClientLog]) -> usize {
    let mut count: usize = 0;
    for log in logs {
        count = count.saturating_add(log.entries.len());
    }
    count
}

/// Adds the survey that an entry is.
fn add(surveys: &mut Vec<Survey>, entry: Entry) -> Result<(), AllocError>
    ensures { OnOk result (surveys.new.items ≡ surveys.old.items ++ surveys_of (entry ∷ [])) }
{
    if let Entry::Survey(survey) = entry {
        surveys.push(survey)?;
    }
    Ok(())
}

/// Adds the surveys of a log.
fn add_all(surveys: &mut Vec<Survey>, log: &[Entry]) -> Result<(), AllocError>
    ensures { OnOk result (surveys.new.items ≡ surveys.old.items ++ surveys_of log.now) }
{
    for entry in log {
        add(surveys, *entry)?;
    }
    Ok(())
}

/// The surveys of the logs, one log after another. Room is asked for once, for as many entries as there are
/// that are not receipts of the `calls` calls.
fn gather_surveys(
    alloc: Global,
    logs: &[ClientLog],
    calls: usize,
) -> Result<Vec<Survey>, AllocError>
    ensures { IfOk result (λ v. v.items ≡ all_surveys logs.now) }
{
    let mut surveys = Vec::with_capacity(alloc, entry_count(logs).saturating_sub(calls))?;
    for log in logs {
        add_all(&mut surveys, log.entries)?;
    }
    Ok(surveys)
}

/// The surveys of the logs, which have the receipts of `calls` calls, in the order of their places.
///
/// # Errors
///
/// If there is no memory for their list.
pub(crate) fn surveys_in_order(
    alloc: Global,
    logs: &[ClientLog],
    calls: usize,
) -> Result<Vec<Survey>, AllocError>
    ensures permutation { IfOk result (λ v. IsPermutation (all_surveys logs.now) v.items) }
    ensures sorted { IfOk result (λ v. IsNonDecreasingBy (λ s. s.position) v.items) }
{
    let mut surveys = gather_surveys(alloc, logs, calls)?;
    surveys.sort_unstable_by_key(|survey| survey.position);
    Ok(surveys)
}

/// Surveys in the order of their places.
///
/// # Errors
///
/// No memory for their list.
pub(crate) fn in_order(alloc: Global, surveys: &[Survey]) -> Result<Vec<Survey>, AllocError>
    ensures permutation { IfOk result (λ v. IsPermutation surveys.now v.items) }
    ensures sorted { IfOk result (λ v. IsNonDecreasingBy (λ s. s.position) v.items) }
{
    let mut ordered = Vec::from_slice(alloc, surveys)?;
    ordered.sort_unstable_by_key(|survey| survey.position);
    Ok(ordered)
}
