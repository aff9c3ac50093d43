//! Tests of the crates from `ring_model` to `ring_turns`, by their public items only. They are here so that those crates are
//! not proved once more with their tests; each module is named after what it tests.
#![tactic(auto)]

#[cfg(test)]
mod book;
#[cfg(test)]
mod chains;
#[cfg(test)]
mod events;
#[cfg(test)]
mod groups;
#[cfg(test)]
mod lanes;
#[cfg(test)]
mod names;
#[cfg(test)]
mod plain;
#[cfg(test)]
mod replay;
#[cfg(test)]
mod rings;
#[cfg(test)]
mod settle;
#[cfg(test)]
mod shared;
#[cfg(test)]
mod states;
#[cfg(test)]
mod turns;
#[cfg(test)]
mod wide_lanes;
