//! Tests of what the commands are made of, by public items only: readers that fail or give too much, faults that no words lead to,
//! folders and chains of segments, and histories of holds that no legal text has.
#![tactic(auto)]

#[cfg(test)]
mod faults;
#[cfg(test)]
mod folders;
#[cfg(test)]
mod holds;
#[cfg(test)]
mod joins;
#[cfg(test)]
mod lists;
#[cfg(test)]
mod names;
#[cfg(test)]
mod reading;
#[cfg(test)]
mod remarks;
#[cfg(test)]
mod segments;
#[cfg(test)]
mod streams;
