//! Tests of rings that lines drive, and of the loops in which a service answers lines, in a file, in segments and as a replica, by their
//! public calls only.
#![tactic(auto)]

#[cfg(test)]
mod by_line;
#[cfg(test)]
mod endless;
#[cfg(test)]
mod loops;
#[cfg(test)]
mod replicas;
#[cfg(test)]
mod segment_loops;
