//! What is known after some lines.

use crate::lines::{Due, Ring};
use crate::table::Table;

/// What is known after some lines: the rings and their names; how many rings are of fixed locks, which come first; how many
/// grants there were of all rings; what has to come next.
#[derive(Drop)]
pub(crate) struct Notes {
    pub(crate) rings: Vec<Ring>,
    pub(crate) names: Table,
    pub(crate) fixed: usize,
    pub(crate) top: u64,
    pub(crate) due: Due,
}
