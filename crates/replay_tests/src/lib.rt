//! Tests of notes of lines, and of what comes back of them at a start, by public items only.
#![tactic(auto)]

#[cfg(test)]
mod counters;
#[cfg(test)]
mod notes;
#[cfg(test)]
mod replays;
