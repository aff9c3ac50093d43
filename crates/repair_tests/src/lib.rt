//! Tests of `ring_repairs`, and of the texts and reports over it, by public items only. They are here so that these are not proved once more
//! with their tests.
#![tactic(auto)]

#[cfg(test)]
mod commands;
#[cfg(test)]
mod groups;
#[cfg(test)]
mod pictures;
#[cfg(test)]
mod repairs;
#[cfg(test)]
mod reports;
#[cfg(test)]
mod rounds;
#[cfg(test)]
mod studies;
#[cfg(test)]
mod texts;
#[cfg(test)]
mod threads;
