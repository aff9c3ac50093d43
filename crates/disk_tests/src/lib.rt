//! Tests of files by their names: in memory, in a folder of the system's, and after a loss of power, by the public calls of `disks` only.
#![tactic(auto)]

#[cfg(test)]
mod grown;
#[cfg(test)]
mod losing;
#[cfg(test)]
mod memory;
#[cfg(test)]
mod playing;
#[cfg(test)]
mod replacing;
#[cfg(test)]
mod safety;
#[cfg(test)]
mod system;
