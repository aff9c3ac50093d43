//! Tests of the commands `serve`, `locks`, `recover` and `picture` that no row of `tests/rows` shows: outputs whose flush fails, how a
//! journal is used, what is left where syncs fail, and two servers of one folder.
#![tactic(auto)]

#[cfg(test)]
mod commands;
#[cfg(test)]
mod flushing;
#[cfg(test)]
mod one_server;
#[cfg(test)]
mod power;
#[cfg(test)]
mod serving;
