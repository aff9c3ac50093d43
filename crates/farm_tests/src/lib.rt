//! Tests of settings, of farms, of rings that are called by numbers, and of the texts that are written of them, by their public calls
//! only.
#![tactic(auto)]

#[cfg(test)]
mod by_number;
#[cfg(test)]
mod events;
#[cfg(test)]
mod farm;
#[cfg(test)]
mod in_turn;
#[cfg(test)]
mod names;
#[cfg(test)]
mod scripted;
#[cfg(test)]
mod settings;
#[cfg(test)]
mod texts;
